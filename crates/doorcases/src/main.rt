// Every answer and every refusal of the door book; tests/c/doorbook.c has the book of bytes. Each frame prints
// the answer's code and the lock that then stands at a door. The expected output, beside this program, was written by
// hand from the paper.

#![tactic(auto)]

use doorbook::{Book, code};

// A print that fails is let go: there is nobody to tell.
fn print_door(rt: &HostRuntime, book: &Book, door: u8) {
    let _ = println!(rt; " {:08X}", book.lock(door));
}

fn gap(rt: &HostRuntime) {
    let _ = println!(rt);
}

// Enters a frame, and prints the answer and the lock that then stands at a door.
fn enter(rt: &HostRuntime, book: &mut Book, door: u8, frame: &[u8]) {
    let answer = code(book.enter(frame));
    let _ = print!(rt; "{answer:02X}");
    print_door(rt, book, door);
}

// Frames of one byte for each lock: the door, the new lock, and the one that it supersedes.
fn fit(rt: &HostRuntime, book: &mut Book, fittings: &[(u8, u8, u8)]) {
    for (door, new, old) in fittings {
        enter(
            rt,
            book,
            *door,
            &[0x40, *door, 0, 0, 0, *new, 0, 0, 0, *old],
        );
    }
}

// Fittings and replacements, from an empty book.
fn accepted(rt: &HostRuntime) {
    let mut book = Book::empty();
    print_door(rt, &book, 0);
    fit(rt, &mut book, &[(0, 1, 0)]);
    enter(
        rt,
        &mut book,
        199,
        b"\x40\xC7\xDE\xAD\xBE\xEF\x00\x00\x00\x00",
    );
    // the high byte comes first, in the new lock and in the superseded one
    enter(
        rt,
        &mut book,
        1,
        b"\x40\x01\x01\x02\x03\x04\x00\x00\x00\x00",
    );
    enter(
        rt,
        &mut book,
        1,
        b"\x40\x01\x05\x06\x07\x08\x01\x02\x03\x04",
    );
    // a superseded lock may be fitted again, at another door or at its own
    enter(
        rt,
        &mut book,
        2,
        b"\x40\x02\x01\x02\x03\x04\x00\x00\x00\x00",
    );
    fit(rt, &mut book, &[(0, 9, 1), (0, 1, 9)]);
    // the other doors stand as they stood; no lock above door 199
    for door in [199, 1, 198, 200, 255] {
        print_door(rt, &book, door);
    }
    gap(rt);
}

// Each refusal, and that it comes before those after it. Lock 7 stands at door 3, lock 8 at 4.
fn refused(rt: &HostRuntime) {
    let mut book = Book::empty();
    fit(rt, &mut book, &[(3, 7, 0), (4, 8, 0)]);
    gap(rt);
    malformed(rt, &mut book);
    gap(rt);
    // 19: the doors 200 and 255; also where the new lock is 0, or stands
    fit(
        rt,
        &mut book,
        &[(200, 9, 0), (255, 9, 0), (200, 0, 0), (200, 7, 1)],
    );
    gap(rt);
    // 20: the new lock is 0, stands at another door, or at that door; also where 21 would come
    fit(
        rt,
        &mut book,
        &[
            (3, 0, 7),
            (5, 7, 0),
            (4, 7, 8),
            (3, 7, 7),
            (3, 0, 8),
            (3, 8, 8),
        ],
    );
    gap(rt);
    // 21: none is superseded where one stands, one where none stands, another one, another byte
    fit(rt, &mut book, &[(3, 9, 0), (5, 9, 7), (3, 9, 8)]);
    enter(
        rt,
        &mut book,
        3,
        b"\x40\x03\x00\x00\x00\x09\x07\x00\x00\x00",
    );
    fit(rt, &mut book, &[(3, 9, 9)]);
    gap(rt);
    // nothing of that has changed the book
    fit(rt, &mut book, &[(3, 9, 7)]);
    print_door(rt, &book, 4);
    print_door(rt, &book, 5);
    gap(rt);
}

// 12: no byte, nine, eleven; another code; also where the door is above 199.
fn malformed(rt: &HostRuntime, book: &mut Book) {
    enter(rt, book, 3, b"");
    enter(rt, book, 3, b"\x40\x03\x00\x00\x00\x09\x00\x00\x00");
    enter(rt, book, 3, b"\x40\x03\x00\x00\x00\x09\x00\x00\x00\x07\x00");
    enter(rt, book, 3, b"\x41\x03\x00\x00\x00\x09\x00\x00\x00\x07");
    enter(rt, book, 3, b"\x3F\x03\x00\x00\x00\x09\x00\x00\x00\x07");
    enter(rt, book, 200, b"\x40\xC8\x00\x00\x00\x09\x00\x00\x00");
    enter(rt, book, 200, b"\x00\xC8\x00\x00\x00\x00\x00\x00\x00\x00");
}

// A book that no frames lead to: lock 7 stands at the doors 3 and 4.
fn at_two_doors(rt: &HostRuntime) {
    let mut book = Book::empty();
    book.locks[3] = 7;
    book.locks[4] = 7;
    fit(rt, &mut book, &[(5, 7, 0), (4, 9, 7)]);
    print_door(rt, &book, 3);
    fit(rt, &mut book, &[(4, 7, 9), (3, 1, 7), (4, 7, 9)]);
    print_door(rt, &book, 3);
    gap(rt);
}

fn main(rt: HostRuntime) {
    accepted(&rt);
    refused(&rt);
    at_two_doors(&rt);
}
