use conn_desk::{HandlerError, RequestHandler};
use scm_model::{Answer, Request, refused};
use std::alloc::Global;
use std::mem::replace;

/// Refuses each request by a code that says how many came before it. It has room for so many.
#[derive(Drop)]
pub struct Counter {
    pub alloc: Global,
    pub asked: u32,
    pub room: u32,
}

impl RequestHandler for Counter {
    ghost use Rattle.std.specs.Prelude.{◌≡◌, ◌≤◌};
    ghost use Rattle.wire_tests.specs.Counting.{Counted};

    ghost ready = { λ d. d.asked ≤ d.room };

    ghost called = { Counted };

    ghost rests = { λ d e. e ≡ d };

    ghost full = { λ d request. d.room ≤ d.asked };

    fn call(&mut self, request: Request, told: &mut Answer) -> Result<(), HandlerError> {
        if self.room <= self.asked {
            return Err(HandlerError::Full);
        }
        let reply = refused(self.alloc, &request, self.asked);
        drop(replace(told, Answer::Reply(reply)));
        self.asked += 1;
        Ok(())
    }

    fn raise(&mut self, _subtype: [u8; 16]) -> Result<u32, HandlerError> {
        if self.room <= self.asked {
            return Err(HandlerError::Full);
        }
        let code = self.asked;
        self.asked += 1;
        Ok(code)
    }
}
