//! Layers of which each lies over those behind it.

ghost use Rattle.std.specs.Prelude.{◌≡◌, ◌↔◌, ℕ, ◌+◌, ◌*◌, ◌<◌, ◌++◌, length, slice_index, IsTrue, IfOk, OnOk};
ghost use Rattle.std.specs.List.{Contains};
ghost use Rattle.image_depot.specs.Image.{own_table, IsLaid, IsStack, IsWhole};
ghost use Rattle.page_frames.specs.Tables.{entry_at, entry_bytes, is_own, stacked};

use crate::layer::Layer;
use page_frames::PAGE_SIZE;
use std::alloc::{AllocError, Global};

/// A layer that is laid over others. Where it has every page of its own it stands alone, and else it costs one handle for
/// each of the others.
pub fn lay_over<L: Layer + Drop>(alloc: Global, top: L, behind: &[L]) -> Result<Vec<L>, AllocError>
    ensures { IfOk result (λ layers. IsLaid (L.entries top) top behind.now layers.items) }
{
    let whole = is_whole(&top);
    let mut layers = Vec::new(alloc);
    layers.push(top)?;
    if whole {
        return Ok(layers);
    }
    put_behind(&mut layers, behind)?;
    Ok(layers)
}

/// Puts these layers behind those that are there.
fn put_behind<L: Layer + Drop>(layers: &mut Vec<L>, behind: &[L]) -> Result<(), AllocError>
    ensures { OnOk result (layers.new.items ≡ layers.old.items ++ behind.now) }
{
    for layer in behind {
        layers.push(layer.again()?)?;
    }
    Ok(())
}

/// The first of these layers that has a page of its own.
#[inline]
pub fn first_own<L: Layer>(layers: &[L], page: usize) -> &L
    requires stack { IsStack (L.tables layers.now) }
    requires there { page < length (own_table (L.tables layers.now)) }
    ensures among { Contains layers.now result.now }
    ensures there { page < length (L.entries result.now) }
    ensures own { IsTrue (is_own (entry_at (L.entries result.now) page)) }
    ensures bytes { (at : ℕ) → at < PAGE_SIZE
        → slice_index (stacked (L.tables layers.now)) (PAGE_SIZE * page + at) ≡ slice_index (entry_bytes (entry_at (L.entries result.now) page)) at }
{
    for layer in layers {
        if layer.has(page) {
            return layer;
        }
    }
    unreachable!()
}

/// Whether a layer has every page of its own.
fn is_whole<L: Layer>(layer: &L) -> bool
    ensures { IsTrue result ↔ IsWhole (L.entries layer.now) }
{
    let pages = layer.pages();
    for page in 0..pages {
        if !layer.has(page) {
            return false;
        }
    }
    true
}
