//! Tickets drawn by one thread and by two.
ghost use Rattle.std.specs.Prelude.{◌≡◌, ◌≤◌, true, length};
ghost use Rattle.std.specs.List.{All};

use crate::{Seat, Tickets};
use foundation::OutOfMemory;
use std::alloc::Global;
use std::test::Fail;
use std::thread::{Threads, join};

// The first seat draws the one ticket, number 0. The second is answered None, and None again.
#[test]
fn one_ticket_and_two_seats(rt: HostRuntime) -> Result<(), Fail> {
    let (tickets, mut seats) = Tickets::new(rt.alloc(), 1, 2)?;
    let first = tickets.draw(&mut seats[0]);
    let second = tickets.draw(&mut seats[1]);
    let third = tickets.draw(&mut seats[1]);
    assert!(rt; first == Some(0) && second.is_none() && third.is_none());
    assert_eq!(rt; tickets.close(seats), 1);
    Ok(())
}

// Draws from this seat until none of the row's three tickets is left. The answer has the seat, and how
// often it drew each of the numbers 0, 1 and 2.
fn draw_all(tickets: &Tickets, mut seat: Seat) -> (Seat, [u8; 3])
    requires row { seat.row ≡ tickets.now.row }
    requires three { tickets.now.row.count ≡ 3 }
    ensures { (result.0.row ≡ seat.row) × (result.0.ended ≡ true) }
{
    let mut times: [u8; 3] = [0; 3];
    while let Some(number) = tickets.draw(&mut seat) {
        times[number as usize] = times[number as usize].saturating_add(1);
    }
    (seat, times)
}

// How many of three tickets two threads drew, and how often they drew each, both together. All is 0 where
// there are not two seats, which `Tickets::new` does not let come.
fn draw_by_two<R: Threads + Sync>(rt: &R, alloc: Global) -> Result<(u32, [u8; 3]), OutOfMemory> {
    let (tickets, mut seats) = Tickets::new(alloc, 3, 2)?;
    let (Some(one), Some(two)) = (seats.pop(), seats.pop()) else {
        return Ok((0, [0; 3]));
    };
    let all = &tickets;
    let (left, right) = join(
        rt,
        move || -> (Seat, [u8; 3])
            requires { (one.row ≡ all.now.row) × (all.now.row.count ≡ 3) }
            ensures { result.0.row ≡ one.row }
        { draw_all(all, one) },
        move || -> (Seat, [u8; 3])
            requires { (two.row ≡ all.now.row) × (all.now.row.count ≡ 3) }
            ensures { result.0.row ≡ two.row }
        { draw_all(all, two) },
    );
    let (one, a) = left;
    let (two, b) = right;
    seats.push_reserved(one);
    seats.push_reserved(two);
    let times = [
        a[0].saturating_add(b[0]),
        a[1].saturating_add(b[1]),
        a[2].saturating_add(b[2]),
    ];
    Ok((tickets.close(seats), times))
}

// Whichever thread is faster, all three numbers are drawn, each once.
#[test]
fn two_threads_draw_each_number_once(rt: HostRuntime) -> Result<(), Fail> {
    let (drawn, times) = draw_by_two(&rt, rt.alloc())?;
    assert_eq!(rt; drawn, 3);
    assert_eq!(rt; times, [1, 1, 1]);
    Ok(())
}

// Closes the tickets in another thread, with all their seats, and answers how many were drawn.
fn close_elsewhere<R: Threads + Sync>(rt: &R, tickets: Tickets, seats: Vec<Seat>) -> u32
    requires row { All (λ s. s.row ≡ tickets.row) seats.items }
    requires all { length seats.items ≡ tickets.seats }
    ensures { result ≤ tickets.row.count }
{
    let (drawn, ()) = join(rt, move || tickets.close(seats), || ());
    drawn
}

// One of two tickets is drawn here; the row is then closed by another thread, which counts one.
#[test]
fn tickets_and_seats_go_to_another_thread(rt: HostRuntime) -> Result<(), Fail> {
    let (tickets, mut seats) = Tickets::new(rt.alloc(), 2, 1)?;
    let first = tickets.draw(&mut seats[0]);
    assert_eq!(rt; first, Some(0));
    assert_eq!(rt; close_elsewhere(&rt, tickets, seats), 1);
    Ok(())
}
