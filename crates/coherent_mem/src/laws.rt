// A law over the steps.
ghost use Rattle.std.specs.Prelude.{ℕ, List, ◌<◌};
ghost use Rattle.conda_base.specs.declared.Line.{Line};
ghost use Rattle.conda_base.specs.LineLists.{line_at};
ghost use Rattle.line_memory.specs.Tags.{Tags, Shape};
ghost use Rattle.line_memory.specs.Access.{after_store};
ghost use Rattle.line_memory.specs.Backing.{BackingView, shape_of};
ghost use Rattle.coherent_mem.specs.Again.{IsAtomic, IsStoredAgain};
ghost use Rattle.coherent_mem.specs.Steps.{IsCoherent, StepsTo};

/// A holder that has just stored to a line, or taken it, stores to it again: tags stay, and nothing
/// is noted. So an atomic, a `take` and then a `store`, has the tags, the copies and the notes of
/// one store.
pub fn atomics_store_once()
    ensures again { (shape : Shape) (tags : Tags) (h : ℕ) (l : Line) →
        0 < shape.ways → IsStoredAgain shape tags h l }
    ensures atomic { (old mid new : BackingView) (h addr : ℕ) (bytes : List ℕ) → IsCoherent mid →
        StepsTo (after_store (shape_of old) old.tags h (line_at old.line_bytes addr)) old.view
        old mid →
        StepsTo (after_store (shape_of mid) mid.tags h (line_at mid.line_bytes addr)) bytes
        mid new →
        IsAtomic old mid new h addr bytes }
{}
