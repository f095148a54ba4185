//! Cells that are open: a short list.
ghost use Rattle.std.specs.Prelude.{◌≡◌, ◌⊎◌, ℕ, true};
ghost use Rattle.std.specs.List.{Contains};

/// Is the cell in the list?
pub fn has(cells: &[u32], cell: u32) -> bool
    ensures { result ≡ true → Contains cells.now cell }
{
    for i in 0..cells.len() {
        if cells[i] == cell {
            return true;
        }
    }
    false
}

/// Takes the cell out of the list, once.
pub fn shut(cells: &mut Vec<u32>, cell: u32)
    ensures { (c : ℕ) → Contains cells.old.items c → (c ≡ cell) ⊎ Contains cells.new.items c }
{
    for i in 0..cells.len() {
        if cells[i] == cell {
            let _was = cells.swap_remove(i);
            return;
        }
    }
}
