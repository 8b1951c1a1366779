ghost use Rattle.std.specs.Prelude.{◌≡◌, true};
ghost use Rattle.sec_desc.specs.Layout.{is_sid, sid_of};
ghost use Rattle.sec_desc.specs.Writing.{sid_bytes};
ghost use Rattle.sec_check.specs.Allowed.{everyone as sid_of_everyone, group_of as sid_of_group};
ghost use Rattle.sec_check.specs.Allowed.{has_sid as principal_has};

use scm_model::Principal;

/// S-1-1-0, as it is written (MS-DTYP, 2.4.2.4).
const EVERYONE: [u8; 12] = [1, 1, 0, 0, 0, 0, 0, 1, 0, 0, 0, 0];

/// S-1-5-32-544.
const BUILTIN_ADMINISTRATORS: [u8; 16] = [1, 2, 0, 0, 0, 0, 0, 5, 32, 0, 0, 0, 0x20, 2, 0, 0];

/// S-1-5-32-545.
const BUILTIN_USERS: [u8; 16] = [1, 2, 0, 0, 0, 0, 0, 5, 32, 0, 0, 0, 0x21, 2, 0, 0];

/// The group that tells a principal from others.
#[tactic(auto, unfolding(sec_desc::specs::Writing::sid_bytes, sec_desc::specs::Numbers::bytes_32))]
fn group_of(principal: Principal) -> [u8; 16]
    ensures { result ≡ sid_bytes (sid_of_group principal) }
{
    match principal {
        Principal::Admin => BUILTIN_ADMINISTRATORS,
        Principal::User => BUILTIN_USERS,
    }
}

#[tactic(auto, unfolding(sec_desc::specs::Writing::sid_bytes, sec_desc::specs::Numbers::bytes_32))]
fn everyone() -> [u8; 12]
    ensures { result ≡ sid_bytes sid_of_everyone }
{
    EVERYONE
}

/// Whether the identity at the front of the bytes is one of the principal's.
pub fn has_sid(principal: Principal, bytes: &[u8]) -> bool
    requires { is_sid bytes.now ≡ true }
    ensures { result ≡ principal_has principal (sid_of bytes.now) }
{
    let group = group_of(principal);
    let everyone = everyone();
    bytes.starts_with(&group) || bytes.starts_with(&everyone)
}
