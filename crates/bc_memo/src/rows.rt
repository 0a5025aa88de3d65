//! Rows that are sorted by name.
ghost use Rattle.std.specs.Prelude.{◌≡◌, ◌<◌, IfErr, IfOk, vec_capacity, vec_len};
ghost use Rattle.std.specs.BTreeMap.{insert_entry, is_at};
ghost use Rattle.std.specs.Map.{remove_entry};
ghost use Rattle.bc_names.specs.Names.{name_order};
ghost use Rattle.bc_memo.specs.Places.{AreOrdered, IsFoundAt, IsGapAt, IsStartAt, part_in};

use bc_names::Name;

/// Returns the index of a name's row, or the index at which it would be inserted.
pub(crate) fn find<T>(rows: &[(Name, T)], name: &Name) -> Result<usize, usize>
    requires { AreOrdered rows.now }
    ensures found { IfOk result (IsFoundAt rows.now name.now) }
    ensures missed { IfErr result (IsGapAt rows.now name.now) }
{
    rows.binary_search_by(|row| row.0.cmp(name))
}

/// Returns the index of the first row that does not come before a name.
pub(crate) fn start<T>(rows: &[(Name, T)], name: &Name) -> usize
    requires { AreOrdered rows.now }
    ensures { IsStartAt rows.now name.now result }
{
    match find(rows, name) {
        Ok(place) => place,
        Err(place) => place,
    }
}

/// Puts a value at a name, in place of the one there. The capacity stays the same.
pub(crate) fn put<T: Drop>(rows: &mut Vec<(Name, T)>, name: Name, value: T)
    requires ordered { AreOrdered rows.old.items }
    requires room { vec_len rows.old < vec_capacity rows.old }
    ensures rows { rows.new.items ≡ insert_entry name_order rows.old.items name value }
    ensures memory { vec_capacity rows.new ≡ vec_capacity rows.old }
{
    match find(rows, &name) {
        Ok(place) => rows[place] = (name, value),
        Err(place) => {
            if rows.insert(place, (name, value)).is_err() {
                unreachable!();
            }
        }
    }
}

/// Removes the value of a name, if it has one. The capacity stays the same.
pub(crate) fn take<T: Drop>(rows: &mut Vec<(Name, T)>, name: &Name)
    requires { AreOrdered rows.old.items }
    ensures rows { rows.new.items ≡ remove_entry (is_at (name_order name.now)) rows.old.items }
    ensures memory { vec_capacity rows.new ≡ vec_capacity rows.old }
{
    if let Ok(place) = find(rows, name) {
        drop(rows.remove(place));
    }
}

/// Returns the rows of a name and of the names that begin with it and `/`. They are adjacent.
pub(crate) fn within<'a, T>(rows: &'a [(Name, T)], root: &Name) -> &'a [(Name, T)]
    requires { AreOrdered rows.now }
    ensures { result.now ≡ part_in root.now rows.now }
{
    let rest = &rows[start(rows, root)..];
    let len = rest.partition_point(|row| root.holds(&row.0));
    &rest[..len]
}
