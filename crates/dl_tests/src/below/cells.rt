//! `dl_cells`: what no contract says. The calls succeed, and a fresh reader finds a shown value.
ghost use Rattle.std.specs.Prelude.{◌≡◌, ◌<◌};
ghost use Rattle.dl_cells.specs.Cells.{row_len, cell_of};

use crate::assert_is;
use dl_cells::{CellRow, Reader};
use std::alloc::Global;
use std::io::Eprint;
use std::process::Abort;
use std::sync::Arc;
use std::thread::{self, Threads};

/// A cell of a row, with a reader of it.
#[derive(Drop)]
struct Watched<'a> {
    row: &'a CellRow<u8>,
    place: u32,
    reader: Reader<u8>,
    ghost in_row: { place < row_len row.now },
    ghost of_cell: { reader.cell ≡ cell_of row.now place },
}

impl<'a> Watched<'a> {
    /// A cell with a fresh reader.
    fn new(rt: &impl Abort, row: &'a CellRow<u8>, place: u32) -> Watched<'a>
        requires { place < row_len row.now }
    {
        let reader = row.reader(place).expect(rt, "no memory");
        Watched { row, place, reader }
    }

    /// Shows a value in the cell, and answers the value if the cell gives it back.
    fn show(&mut self, value: u8) -> Option<u8> {
        self.row.show(self.place, &mut self.reader, value).err()
    }

    /// What the cell shows.
    fn look(&mut self) -> Option<u8> {
        self.row.look(self.place, &mut self.reader).copied()
    }
}

/// Rows of cells: their length, a cell to show a value in, another cell or the same, and the value.
static ROWS: [(u32, u32, u32, u8); 3] = [
    (1, 0, 0, 5),
    (130, 129, 0, 7),
    (65_536, 65_535, 65_534, 9),
];

/// A cell shows nothing, then the value, and no other after it, to a fresh reader too. Another cell stays empty.
fn assert_answers(rt: &(impl Abort + Eprint), row: &CellRow<u8>, place: u32, value: u8)
    requires { place < row_len row.now }
{
    let mut cell = Watched::new(rt, row, place);
    assert_is!(rt, &cell.look(), &None, "before it is set");
    assert_is!(rt, &cell.show(value), &None, "what came back");
    assert_is!(rt, &cell.look(), &Some(value), "what is shown");
    let other = value.wrapping_add(1);
    assert_is!(rt, &cell.show(other), &Some(other), "what came back then");
    assert_is!(rt, &cell.look(), &Some(value), "what is shown still");
    let fresh = Watched::new(rt, row, place).look();
    assert_is!(rt, &fresh, &Some(value), "by a fresh reader");
}

#[test]
fn cells_answer(rt: HostRuntime) {
    for (len, place, other, value) in &ROWS {
        let row = CellRow::new(rt.alloc(), *len).expect(&rt, "no memory");
        assert!(rt; *place < *len && *other < *len);
        let mut beside = Watched::new(&rt, &row, *other);
        assert_is!(&rt, &beside.look(), &None, "the other before");
        assert_answers(&rt, &row, *place, *value);
        let want = (*place == *other).then_some(*value);
        assert_is!(&rt, &beside.look(), &want, "the other after");
    }
}

/// Shows a copy of the value in a cell, and answers whether the cell took it.
fn show_copy(rt: &impl Abort, row: &CellRow<Arc<u8>>, place: u32, value: &Arc<u8>) -> bool
    requires { place < row_len row.now }
{
    let mut reader = row.reader(place).expect(rt, "no memory");
    let copy = value.clone().expect(rt, "no memory");
    row.show(place, &mut reader, copy).is_ok()
}

/// Shows copies of the value in a new row: one in each of two cells, and one that comes back.
fn show_copies(rt: &(impl Abort + Eprint), alloc: Global, value: &Arc<u8>) {
    let row = CellRow::new(alloc, 65).expect(rt, "no memory");
    assert!(rt; show_copy(rt, &row, 0, value));
    assert!(rt; !show_copy(rt, &row, 0, value));
    assert!(rt; show_copy(rt, &row, 64, value));
    assert!(rt; !show_copy(rt, &row, 64, value));
    assert_is!(rt, &Arc::strong_count(value), &3, "two that are shown");
}

#[test]
fn each_value_is_dropped_once(rt: HostRuntime) {
    let counted = Arc::new(rt.alloc(), 0u8).expect(&rt, "no memory");
    show_copies(&rt, rt.alloc(), &counted);
    assert_is!(&rt, &Arc::strong_count(&counted), &1, "none that is shown");
}

/// What a copy of a cell's reader sees.
fn look_again(cell: &Watched<'_>) -> Option<u8> {
    let mut reader = cell.reader.again();
    cell.row.look(cell.place, &mut reader).copied()
}

#[test]
fn threads_look_by_one_shared_reader(rt: HostRuntime) {
    let row = CellRow::new(rt.alloc(), 1).expect(&rt, "no memory");
    let mut cell = Watched::new(&rt, &row, 0);
    assert_is!(&rt, &cell.show(3), &None, "what came back");
    let shared = &cell;
    let (one, other) = thread::join(&rt, move || look_again(shared), move || look_again(shared));
    assert_is!(&rt, &one, &Some(3), "what one sees");
    assert_is!(&rt, &other, &Some(3), "what the other sees");
}

/// Shows a value in cell 0, and then looks with a reader of its own. Answers whether the cell took the value, and what
/// it shows.
fn show_and_look(rt: &impl Abort, row: &CellRow<u8>, value: u8) -> (bool, Option<u8>)
    requires { 0 < row_len row.now }
{
    let mut cell = Watched::new(rt, row, 0);
    let is_set = cell.show(value).is_none();
    (is_set, cell.look())
}

/// Two threads race to set one cell, one to 5 and one to 6. One of them wins. Whoever sees a value sees the winner's,
/// and the other thread may look before it is there.
fn race<R: Abort + Eprint + Threads + Sync>(rt: &R, alloc: Global) {
    let row = CellRow::new(alloc, 1).expect(rt, "no memory");
    let shared = &row;
    let ((is_five, first), (is_six, second)) = thread::join(
        rt,
        move || -> (bool, Option<u8>)
            requires { 0 < row_len shared.now }
        { show_and_look(rt, shared, 5) },
        move || -> (bool, Option<u8>)
            requires { 0 < row_len shared.now }
        { show_and_look(rt, shared, 6) },
    );
    assert!(rt; is_five != is_six);
    let won = if is_five { 5 } else { 6 };
    for seen in [first, second] {
        assert!(rt; seen.is_none_or(|value| value == won));
    }
    let fresh = Watched::new(rt, shared, 0).look();
    assert_is!(rt, &fresh, &Some(won), "what is seen after both");
}

#[test]
fn two_threads_race_to_set_one_cell(rt: HostRuntime) {
    for _round in 0..200u32 {
        race(&rt, rt.alloc());
    }
}
