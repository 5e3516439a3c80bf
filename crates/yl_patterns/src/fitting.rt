//! Whether a path fits items. For each place of the path there is a flag: whether what stands from there on fits the items from one
//! on. The items are gone through from the last to the first.
ghost use Rattle.std.specs.Prelude.{◌≡◌, ◌+◌, ◌&&◌, ◌||◌, ℕ, List, Bool, length};
ghost use Rattle.yl_patterns.specs.Fits.{is_name_end, item_fits, items_fit, one_fits, run_fits, stands_for, some_folder_fits};
ghost use Rattle.yl_patterns.specs.Tables.{IsTable};

use crate::item::Item;

// Flags the places at which a name ends.
fn put_ends(path: &[char], row: &mut [bool])
    requires { length row.old ≡ length path.now + 1 }
    ensures { IsTable is_name_end path.now row.new }
{
    row[path.len()] = true;
    for k in (0..path.len()).rev() {
        row[k] = path[k] == '/';
    }
}

// Whether the item stands for a character after which the next items fit.
fn one_fits(item: Item, after: &[Item], c: char, next: bool) -> bool
    ensures { result ≡ (stands_for item after.now c && next) }
{
    next && item.stands_for(after, c)
}

// Puts an item that stands for one character before those of the row.
fn put_one(item: Item, after: &[Item], path: &[char], row: &mut [bool])
    requires { length row.old ≡ length path.now + 1 }
    ensures { (next : List ℕ → Bool) → IsTable next path.now row.old
        → IsTable (one_fits (stands_for item after.now) next) path.now row.new }
{
    let mut next = row[path.len()];
    row[path.len()] = false;
    for k in (0..path.len()).rev() {
        let here = row[k];
        row[k] = one_fits(item, after, path[k], next);
        next = here;
    }
}

// Puts a `*` before the items of the row.
fn put_run(path: &[char], row: &mut [bool])
    requires { length row.old ≡ length path.now + 1 }
    ensures { (next : List ℕ → Bool) → IsTable next path.now row.old → IsTable (run_fits next) path.now row.new }
{
    for k in (0..path.len()).rev() {
        row[k] |= (path[k] != '/') & row[k + 1];
    }
}

// Puts a `**/` before the items of the row.
fn put_folders(path: &[char], row: &mut [bool])
    requires { length row.old ≡ length path.now + 1 }
    ensures { (next : List ℕ → Bool) → IsTable next path.now row.old
        → IsTable (λ cs. next cs || some_folder_fits next cs) path.now row.new }
{
    let mut next = row[path.len()];
    let mut some_folder = false;
    for k in (0..path.len()).rev() {
        some_folder |= (path[k] == '/') & next;
        next = row[k];
        row[k] = next | some_folder;
    }
}

// Puts an item before those of the row.
fn put_item(item: Item, after: &[Item], path: &[char], row: &mut [bool])
    requires { length row.old ≡ length path.now + 1 }
    ensures { (next : List ℕ → Bool) → IsTable next path.now row.old
        → IsTable (item_fits item after.now next) path.now row.new }
{
    match item {
        Item::Star => put_run(path, row),
        Item::Folders => put_folders(path, row),
        Item::Range { .. } => {}
        Item::Character(_) | Item::AnyCharacter | Item::Class { .. } => {
            put_one(item, after, path, row);
        }
    }
}

/// Whether the path fits the items. The row has room for a flag at each place of the path and at its end; what it holds is lost.
pub fn fits(items: &[Item], path: &[char], row: &mut [bool]) -> bool
    requires { length row.old ≡ length path.now + 1 }
    ensures { result ≡ items_fit items.now path.now }
{
    put_ends(path, row);
    for i in (0..items.len()).rev() {
        put_item(items[i], &items[i + 1..], path, row);
    }
    row[0]
}
