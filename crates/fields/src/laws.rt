// The laws of cutting and joining.
ghost use Rattle.fields.specs.Cuts.{CutOfJoined, JoinedOfCut, FieldsStand};

// Fields without byte 10 that are joined are cut again into the same fields, and a text that is cut is joined again to the same text.
pub fn cut_and_joined()
    ensures cut { CutOfJoined }
    ensures joined { JoinedOfCut }
{}

// Each field's bytes stand in the text from its start to its end.
pub fn fields_stand()
    ensures { FieldsStand }
{}
