// What the contract of `read_plan` fixes.
ghost use Rattle.plan_text.specs.Agreed.{ReadingsAgree};

// A text has one reading: its bytes decide all that `read_plan` answers, and of the draft what was entered into it.
pub fn readings_agree()
    ensures { ReadingsAgree }
{}
