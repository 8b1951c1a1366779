ghost use Rattle.std.specs.Prelude.{◌≡◌};
ghost use Rattle.start_triggers.specs.Triggers.{first_action, matching};

use scm_model::{Config, Trigger};

/// The action of the first of some triggers that has a subtype.
fn first_action(triggers: &[Trigger], subtype: &[u8; 16]) -> Option<u32>
    ensures { result ≡ first_action triggers.now subtype.now }
{
    for trigger in triggers {
        if trigger.subtype == *subtype {
            return Some(trigger.action);
        }
    }
    None
}

/// The action of the first trigger of a service that has a subtype; none exactly where there is no
/// such trigger. It takes no memory.
pub fn matching(config: &Config, subtype: &[u8; 16]) -> Option<u32>
    ensures { result ≡ matching config.now subtype.now }
{
    first_action(config.triggers.as_slice(), subtype)
}
