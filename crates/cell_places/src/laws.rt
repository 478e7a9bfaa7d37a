//! Facts about the places of cells: each is the contract of a function that does nothing.
ghost use Rattle.cell_places.specs.Level.{PlacesAreAltitudes, CalleesCellsAreCallers, CellsAreBetween};
ghost use Rattle.cell_places.specs.Place.{RegistersAreCells, CellsAreApart, RegistersHoldContents};

/// The register of a number in the window at depth 0 or 1 is the cell of that register at that depth.
pub fn registers_are_cells()
    ensures { RegistersAreCells }
{}

/// Two cells of a frame are never one register.
pub fn cells_are_apart()
    ensures { CellsAreApart }
{}

/// Registers have what their cells hold; a write of one changes what its cell holds alone; and all are words.
pub fn registers_hold_contents()
    ensures { RegistersHoldContents }
{}

/// The place of a cell that is no global is its altitude above the invalid window, round the ring of windows.
pub fn places_are_altitudes()
    ensures { PlacesAreAltitudes }
{}

/// A cell of a callee that is a cell of its caller is the one that stands for it there.
pub fn callees_cells_are_callers()
    ensures { CalleesCellsAreCallers }
{}

/// A register that a frame may write, and that is a cell of a frame above it, is a cell of each frame between them.
pub fn cells_are_between()
    ensures { CellsAreBetween }
{}
