// Labels, each at the first line that it stands on.
ghost use Rattle.std.specs.Prelude.{◌≡◌, Some, OnOk};
ghost use Rattle.rv32_asm.specs.Labels.{place_in, IsPlaced, HasAdded};

use crate::place::Place;
use std::alloc::{AllocError, Global};
use std::collections::BTreeMap;

/// The place of each label.
pub(crate) type Labels<'a> = BTreeMap<&'a [u8], Place, Global>;

pub(crate) fn find(labels: &Labels<'_>, name: &[u8]) -> Option<Place>
    ensures { result ≡ place_in labels.now name.now }
{
    labels.get(name).copied()
}

// A label's place is the one that it had.
fn put_back<'a>(labels: &mut Labels<'a>, name: &'a [u8], first: Place) -> Result<(), AllocError>
    ensures { OnOk result (IsPlaced name.entry.now first labels.old labels.new) }
{
    labels.insert(name, first)?;
    Ok(())
}

// A label that stands on an earlier line keeps its place, which is put back.
pub(crate) fn add<'a>(
    labels: &mut Labels<'a>,
    name: &'a [u8],
    place: Place,
) -> Result<(), AllocError>
    ensures { OnOk result (HasAdded (Some name.entry.now) place labels.old labels.new) }
{
    match labels.insert(name, place)? {
        None => {}
        Some(first) => put_back(labels, name, first)?,
    }
    Ok(())
}
