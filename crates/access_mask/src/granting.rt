ghost use Rattle.std.specs.Prelude.{◌≡◌};
ghost use Rattle.access_mask.specs.Granted.{chosen, connected, granted, is_allowed, map_generic};
ghost use Rattle.access_mask.specs.Granted.{mapped, mapping_of, rights_of};

use super::AccessMask;
use bitflags::Flags;
use scm_model::Principal;

/// What the generic rights stand for on an object, as in `GENERIC_MAPPING`.
#[derive(Clone, Copy, Debug, PartialEq, Eq)]
struct Mapping {
    read: u32,
    write: u32,
    execute: u32,
    everything: u32,
}

const MANAGER_MAPPING: Mapping = Mapping {
    read: 0x2_0014,
    write: 0x2_0022,
    execute: 0x2_0009,
    everything: 0xF_003F,
};

const SERVICE_MAPPING: Mapping = Mapping {
    read: 0x2_008D,
    write: 0x2_0002,
    execute: 0x2_0170,
    everything: 0xF_01FF,
};

/// What a generic right stands for, where it is asked for.
fn mapped(desired: AccessMask, generic: AccessMask, mapping: u32) -> AccessMask
    ensures { result.0 ≡ mapped desired.0 generic.0 mapping }
{
    if desired.contains(generic) {
        AccessMask::from_bits_retain(mapping)
    } else {
        AccessMask::empty()
    }
}

/// What the generic rights stand for, on the manager where `manager` is true, else on a service.
fn mapping_of(manager: bool) -> Mapping
    ensures { result ≡ mapping_of manager }
{
    if manager {
        MANAGER_MAPPING
    } else {
        SERVICE_MAPPING
    }
}

/// The rights asked for, with each generic one replaced.
fn mask_of(manager: bool, desired: u32) -> AccessMask
    ensures { result.0 ≡ map_generic manager desired }
{
    let mapping = mapping_of(manager);
    let desired = AccessMask::from_bits_retain(desired);
    let generic = AccessMask::from_bits_retain(0xF000_0000);
    let lower = mapped(desired, AccessMask::GENERIC_EXECUTE, mapping.execute).union(mapped(
        desired,
        AccessMask::GENERIC_ALL,
        mapping.everything,
    ));
    let middle = mapped(desired, AccessMask::GENERIC_WRITE, mapping.write).union(lower);
    let upper = mapped(desired, AccessMask::GENERIC_READ, mapping.read).union(middle);
    desired.difference(generic).union(upper)
}

/// The rights asked for, with each generic one replaced by what it stands for on the manager where
/// `manager` is true, else on a service. The other bits stay, `MAXIMUM_ALLOWED` too.
pub fn map_generic(manager: bool, desired: u32) -> u32
    ensures { result ≡ map_generic manager desired }
{
    mask_of(manager, desired).bits()
}

const ADMIN_ON_MANAGER: u32 = 0xF_003F;

const ADMIN_ON_SERVICE: u32 = 0xF_81FF;

const USER_ON_MANAGER: u32 = 0x2_0015;

const USER_ON_SERVICE: u32 = 0x2_008D;

/// Every right that a principal can have.
fn rights_of(principal: Principal, manager: bool) -> u32
    ensures { result ≡ rights_of principal manager }
{
    match principal {
        Principal::Admin => {
            if manager {
                ADMIN_ON_MANAGER
            } else {
                ADMIN_ON_SERVICE
            }
        }
        Principal::User => {
            if manager {
                USER_ON_MANAGER
            } else {
                USER_ON_SERVICE
            }
        }
    }
}

/// Whether each bit but `MAXIMUM_ALLOWED` is among the rights.
fn is_allowed(mask: AccessMask, rights: AccessMask) -> bool
    ensures { result ≡ is_allowed mask.0 rights.0 }
{
    rights.contains(mask.difference(AccessMask::MAXIMUM_ALLOWED))
}

/// All rights where they are asked for, else those that are asked for.
fn chosen(mask: AccessMask, rights: AccessMask) -> AccessMask
    ensures { result.0 ≡ chosen mask.0 rights.0 }
{
    if mask.contains(AccessMask::MAXIMUM_ALLOWED) {
        rights
    } else {
        mask
    }
}

/// Adds `SC_MANAGER_CONNECT` to a handle of the manager.
fn connected(manager: bool, mask: AccessMask) -> u32
    ensures { result ≡ connected manager mask.0 }
{
    if manager {
        mask.bits() | 1
    } else {
        mask.bits()
    }
}

/// The rights of a new handle, of the manager where `manager` is true, else of a service, for who
/// asks for the desired access.
/// `None` is for access denied: a right is asked for that the principal can't have. The rights and
/// the generic mappings are those of MS-SCMR and Win32's `winsvc.h`, 0x8000 is this manager's own:
/// to set a service's status.
pub fn granted(principal: Principal, manager: bool, desired: u32) -> Option<u32>
    ensures { result ≡ granted principal manager desired }
{
    let mask = mask_of(manager, desired);
    let rights = AccessMask::from_bits_retain(rights_of(principal, manager));
    if is_allowed(mask, rights) {
        Some(connected(manager, chosen(mask, rights)))
    } else {
        None
    }
}
