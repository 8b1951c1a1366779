// Two listeners that are to listen.
ghost use Rattle.scm_serving.specs.Listening.{ListenBoth, told_by};

use outside::Failed;
use scm_listener::{Listener, Listening};

/// Lets the listener of administrators listen, and then that of users. Where the first fails the
/// other isn't asked.
pub fn listen_both<N: Listener>(
    admin: &mut N,
    admin_at: Listening,
    user: &mut N,
    user_at: Listening,
) -> Result<(), Failed>
    ensures { ListenBoth admin_at user_at
        (told_by N.left N.accepted N.noted N.listened N.faults admin.old)
        (told_by N.left N.accepted N.noted N.listened N.faults admin.new)
        (told_by N.left N.accepted N.noted N.listened N.faults user.old)
        (told_by N.left N.accepted N.noted N.listened N.faults user.new) result }
{
    admin.listen(admin_at.port, admin_at.take)?;
    user.listen(user_at.port, user_at.take)
}
