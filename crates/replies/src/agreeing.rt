// What the contract of `answer` fixes.
ghost use Rattle.replies.specs.Replied.{RepliesAgree};

// A text has one answer: its bytes decide every byte that is written.
pub fn replies_agree()
    ensures { RepliesAgree }
{}
