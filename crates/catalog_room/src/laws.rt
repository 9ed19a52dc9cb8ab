//! What holds of a catalog behind a lock, named by contracts.

ghost use Rattle.std.specs.Prelude.{◌≡◌};
ghost use Rattle.disk_calls.specs.Frames.{Besides};
ghost use Rattle.gated_words.specs.Files.{second_file};
ghost use Rattle.gated_words.specs.InHand.{InHand};
ghost use Rattle.gated_words.specs.Backing.{Backs};
ghost use Rattle.segment_store.specs.Words.{epochs_file};
ghost use Rattle.stream_catalog.specs.InHand.{Backed, Catalogued, OtherFiles};

use disk_calls::Disk;

/// The catalog and the epochs of the streams stand on one disk: a change of the catalog leaves the epochs, and an epoch
/// that is given leaves the catalog. It does nothing.
pub fn catalog_and_epochs_stand_apart<D: Disk>()
    ensures epochs { (hand : InHand) (old new : D) → hand.id ≡ epochs_file → OtherFiles (D.state old) (D.state new) → Backs hand (D.state old) → Backs hand (D.state new) }
    ensures catalog { (c : Catalogued) (old new : D) → Besides epochs_file (second_file epochs_file) (D.state old) (D.state new) → Backed c (D.state old) → Backed c (D.state new) }
{}
