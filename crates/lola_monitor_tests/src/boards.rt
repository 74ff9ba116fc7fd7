//! Sleeps that somebody has ended before they begin, on one thread.

use lola_monitor_threads::board::Board;
use lola_value::text::Memory;

/// A source that found no room seven times, while rows were taken; and a taker that found nothing, while a row came, or its bell rang.
#[test]
fn no_waking_is_lost(rt: HostRuntime) -> Result<(), Memory> {
    let board = Board::create(rt.alloc(), 1)?;
    let bell = board.bell().another()?;
    for times in 0..7 {
        board.wait_for_room(&rt, 0, times);
        board.rows_are_out();
    }
    board.row_is_in(0, 7);
    for _ in 0..100 {
        board.wait_for_rows(&rt);
        board.row_is_in(0, 0);
    }
    for _ in 0..100 {
        bell.ring();
        board.wait_for_rows(&rt);
    }
    assert!(rt; !board.is_stopped());
    Ok(())
}
