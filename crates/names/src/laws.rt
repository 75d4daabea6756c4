// The laws of names and users.
ghost use Rattle.names.specs.Laws.{NamesTold, UsersTold, UsersAreNames, NamesWorked};

// What a name is, in plain words.
pub fn names_told()
    ensures { NamesTold }
{}

// What a user is, in plain words.
pub fn users_told()
    ensures { UsersTold }
{}

// A user is a name, and a name of at most 16 bytes is a user.
pub fn users_are_names()
    ensures { UsersAreNames }
{}

// Worked examples.
pub fn names_worked()
    ensures { NamesWorked }
{}
