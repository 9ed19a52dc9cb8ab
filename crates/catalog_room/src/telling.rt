//! How what came of a change is told.

ghost use Rattle.std.specs.Prelude.{◌≡◌, ◌≤◌};
ghost use Rattle.catalog_room.specs.Rooms.{damages_after, damages_with, refused_as, told_as};

use command_fields::ResponseCode;
use hub_terms::HubDid;
use stream_catalog::CatalogFault;

/// How it is told that a change isn't made. Files that are damaged are counted.
fn refuse(fault: CatalogFault, damages: &mut u64) -> HubDid
    ensures told { result ≡ refused_as fault }
    ensures counted { damages.new ≡ damages_with fault damages.old }
    ensures later { damages.old ≤ damages.new }
{
    match fault {
        CatalogFault::Missing => HubDid::Code(ResponseCode::StreamDoesNotExist),
        CatalogFault::Exists => HubDid::Code(ResponseCode::StreamAlreadyExists),
        CatalogFault::Refused(_) => HubDid::Code(ResponseCode::PreconditionFailed),
        CatalogFault::Disk => HubDid::Failed,
        CatalogFault::Damaged { place: _ } => {
            *damages = damages.saturating_add(1);
            HubDid::Failed
        }
        CatalogFault::Memory => HubDid::Memory,
    }
}

/// How it is told what came of a change. Files that are damaged are counted.
pub(crate) fn tell<T: Drop>(made: Result<T, CatalogFault>, damages: &mut u64) -> HubDid
    ensures told { result ≡ told_as made }
    ensures counted { damages.new ≡ damages_after made damages.old }
    ensures later { damages.old ≤ damages.new }
{
    match made {
        Ok(_) => HubDid::Code(ResponseCode::Ok),
        Err(fault) => refuse(fault, damages),
    }
}
