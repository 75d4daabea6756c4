// Worked values of the public documents, as theorems about the definitions that the contracts cite.
#![tactic(auto)]

ghost use Rattle.worked.specs.Ciphers.{CiphersWorked};
ghost use Rattle.worked.specs.Values.{DigestsWorked, CodesWorked, KeysWorked};

pub fn digests()
    ensures { DigestsWorked }
{}

pub fn codes()
    ensures { CodesWorked }
{}

pub fn derived_keys()
    ensures { KeysWorked }
{}

pub fn ciphers()
    ensures { CiphersWorked }
{}
