ghost use Rattle.std.specs.Prelude.{◌≡◌, Option, IfOk, IsErrOf, IsTrue, OnErr, OnOk};
ghost use Rattle.scm_model.specs.Ranges.{in_range};
ghost use Rattle.scm_model.specs.declared.calls.Reply.{Reply};
ghost use Rattle.scm_model.specs.declared.calls.Reply.TheVariants.{Code};
ghost use Rattle.conn_desk.specs.declared.asked.DecodedRequest.{DecodedRequest};
ghost use Rattle.conn_desk.specs.declared.asked.DecodedRequest.TheVariants.{Call, Raise};
ghost use Rattle.conn_desk.specs.Desks.{CallAnswered, HasReply};

use scm_model::{Answer, Request};

/// Why a request has no answer.
#[derive(Clone, Copy)]
pub enum HandlerError {
    /// There is no room for what it would make.
    Full,
    OutOfMemory,
}

/// Answers the requests of one caller.
pub trait RequestHandler {
    /// What it has to be before a request, and is after each.
    ghost ready: { Self → Type 0 };

    /// What an answered request makes of it, by what was heard of the request: a reply, or that
    /// there was no memory for one. The reply to a raise is a code.
    ghost called: { Self → Self → DecodedRequest → Option Reply → Type 0 };

    /// What a request without an answer leaves.
    ghost rests: { Self → Self → Type 0 };

    /// It has no room for a request.
    ghost full: { Self → DecodedRequest → Type 0 };

    /// Makes a call, and puts its reply into `told`. Where there was no memory for it, that may
    /// stand in its place, and is answered by the call's own refusal.
    fn call(&mut self, request: Request, told: &mut Answer) -> Result<(), HandlerError>
        requires ready { ready self.old }
        requires ranged { IsTrue (in_range request) }
        ensures ready { ready self.new }
        ensures answered { OnOk result
            (HasReply told.new (CallAnswered called self.old self.new (Call request))) }
        ensures left { OnErr result (rests self.old self.new) }
        ensures untold { OnErr result (told.new ≡ told.old) }
        ensures full { IsErrOf result HandlerError.Full → full self.new (Call request) };

    /// Raises what has a subtype, and answers the code. Where there was no memory for it, that may
    /// stand in its place, and is answered by a code too.
    fn raise(&mut self, subtype: [u8; 16]) -> Result<u32, HandlerError>
        requires ready { ready self.old }
        ensures ready { ready self.new }
        ensures answered { IfOk result (λ code.
            CallAnswered called self.old self.new (Raise subtype) (Code code)) }
        ensures left { OnErr result (rests self.old self.new) }
        ensures full { IsErrOf result HandlerError.Full → full self.new (Raise subtype) };
}
