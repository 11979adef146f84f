//! What a lawful image recovers to.

ghost use Rattle.std.specs.Prelude.{◌≡◌, ℕ, ◌<◌, ◌≤◌, Some, None, Err, length, slice_index, IfOk};
ghost use Rattle.seq_object.specs.Plain.{listed};
ghost use Rattle.room_model.specs.MapRoom.{live_layout};
ghost use Rattle.room_model.specs.Image.{recovered_room, IsLawful};
ghost use Rattle.power_cut.specs.Image.{sizes_in, rooms_in, IsWhole};
ghost use Rattle.power_cut.specs.declared.fault.ImageFault.{ImageFault};
ghost use Rattle.power_cut.specs.declared.fault.ReadImageRefusal.TheVariants.{Fault};
ghost use Rattle.image_check.specs.Cells.{rooms_of, layout_of_view, IsView};
ghost use Rattle.image_check.specs.Keyed.{pairs_in};
ghost use Rattle.image_check.specs.ImageFaults.{image_fault};
ghost use Rattle.image_check.specs.Recovered.{HasAllPairs, IsRecovered};
ghost use Rattle.seq_object.specs.Sizes.{thread_room};

use crate::checking::first_fault;
use crate::recovered::Recovered;
use crate::view::View;
use power_cut::{Image, ReadImageRefusal};
use room_walks::items;
use seq_object::Pair;
use std::alloc::{AllocError, Global};
use std::collections::BTreeMap;

/// What a whole image recovers to. It does so exactly where the image is lawful; else the refusal is the first fault in this
/// order: the epoch, the first tag that is ahead of it, then the rooms one by one. Want of memory may come in place of
/// either.
pub fn check_image(alloc: Global, image: &Image) -> Result<Recovered, ReadImageRefusal>
    requires whole { IsWhole image.now }
    ensures recovers { IfOk result (λ found. IsRecovered live_layout (sizes_in image.now) (rooms_in image.now) found) }
    ensures first { (fault : ImageFault) → result ≡ Err (Fault fault) → image_fault live_layout (sizes_in image.now) (rooms_in image.now) ≡ Some fault }
    ensures unlawful { (fault : ImageFault) → result ≡ Err (Fault fault) → IsLawful live_layout (sizes_in image.now) (rooms_in image.now) → ⊥ }
{
    let view = View::of(image);
    let mut pairs = BTreeMap::new(alloc);
    match first_fault(alloc, view, &mut pairs)? {
        Some(fault) => Err(ReadImageRefusal::Fault(fault)),
        None => Ok(recovered(alloc, view, &pairs)?),
    }
}

/// What an image without a fault recovers to, with the pairs of all shards. Want of memory is the one refusal.
fn recovered(alloc: Global, view: View, pairs: &BTreeMap<u64, u64>) -> Result<Recovered, AllocError>
    requires view { IsView view }
    requires faultless { image_fault (layout_of_view view) view.sizes (rooms_of view) ≡ None }
    requires pairs { HasAllPairs (layout_of_view view) view.sizes (rooms_of view) (pairs_in pairs.now.entries) }
    ensures { IfOk result (λ found. IsRecovered (layout_of_view view.entry) view.entry.sizes (rooms_of view.entry) found) }
{
    let queue = view.cells(view.sizes.queue_room());
    Ok(Recovered {
        epoch: view.epoch as u32,
        positions: positions(alloc, view)?,
        pairs: listed_pairs(alloc, pairs)?,
        items: items(alloc, &queue, queue.sizes.lines)?,
    })
}

/// The positions of the threads, by their numbers.
fn positions(alloc: Global, view: View) -> Result<Vec<u64>, AllocError>
    requires { IsView view }
    ensures many { IfOk result (λ positions. length positions.items ≡ view.entry.sizes.threads) }
    ensures words { IfOk result (λ positions. (thread : ℕ) → thread < view.entry.sizes.threads → slice_index positions.items thread ≡ recovered_room view.entry.sizes (rooms_of view.entry) (thread_room view.entry.sizes thread) 0 0) }
{
    let mut positions = Vec::with_capacity(alloc, view.sizes.threads as usize)?;
    for thread in 0..view.sizes.threads {
        positions.push(view.cells(view.sizes.thread_room(thread)).word(0, 0))?;
    }
    Ok(positions)
}

/// The pairs of a tree, in the order of their keys.
fn listed_pairs(alloc: Global, pairs: &BTreeMap<u64, u64>) -> Result<Vec<Pair>, AllocError>
    ensures { IfOk result (λ list. list.items ≡ listed (pairs_in pairs.now.entries)) }
{
    pairs
        .iter()
        .map(|(&key, &value)| Pair { key, value })
        .collect(alloc)
}
