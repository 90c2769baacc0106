// What a call's body gives.
ghost use Rattle.std.specs.Prelude.{◌≡◌, None};
ghost use Rattle.kern_model.specs.declared.calls.Answer.TheVariants as answer;

use chk_rules::Stop;
use kern_model::{Answer, Rec};

/// What the body of a call returns: its effect, or why it stopped.
pub type CallResult = Result<Effect, Stop>;

/// What the body of a call gives: the answer, and the call's own record if it leaves one.
#[derive(Debug, Drop)]
pub struct Effect {
    pub answer: Answer,
    pub own: Option<Rec>,
}

impl Effect {
    /// The effect of a call that answers this and leaves no record of its own.
    pub fn answers(answer: Answer) -> Effect
        ensures { result ≡ record { answer = answer; own = None } }
    {
        Effect { answer, own: None }
    }

    /// The effect of a call that was done, and leaves no record of its own.
    pub fn done() -> Effect
        ensures { result ≡ record { answer = answer.Nothing; own = None } }
    {
        Effect::answers(Answer::Nothing)
    }
}
