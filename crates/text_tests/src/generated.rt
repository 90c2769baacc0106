// The generated text, whole and in pieces.
use gen_world::{Generator, NoMemory, gen_text};
use std::alloc::Global;

const TEXT_OF_1: &[u8] = b"world 2\n\
    levels l0 l1 l2 l3\n\
    categories c0 c1\n\
    bound all\n\
    dir / 0777 0 0 l0\n\
    dir /d0 0777 0 0 l0\n\
    dir /d1 0777 0 0 l1\n\
    dir /d2 0777 0 0 l2\n\
    dir /d3 0777 0 0 l3\n\
    proc l0 100 100 - \"=\"\n\
    proc l1 101 101 - \"=\"\n\
    proc l2 102 102 - \"=\"\n\
    proc l3 103 103 - \"=\"\n\
    script\n\
    1@l2 read 3 8\n";

// The next piece of a generator, which is empty where none is left.
fn next_piece(alloc: Global, generator: &mut Generator) -> Result<Vec<u8>, NoMemory> {
    let mut piece = Vec::new(alloc);
    generator.put_next(&mut piece)?;
    Ok(piece)
}

// Whether the next piece of a generator is this one.
fn gives(alloc: Global, generator: &mut Generator, expected: &[u8]) -> bool {
    match next_piece(alloc, generator) {
        Ok(piece) => piece.as_slice() == expected,
        Err(_) => false,
    }
}

// Whether the generated text for 1 is this one.
fn is_text_of_1(alloc: Global, expected: &[u8]) -> bool {
    match gen_text(alloc, 1) {
        Ok(text) => text.as_slice() == expected,
        Err(_) => false,
    }
}

#[test]
fn text_of_one_line(rt: HostRuntime) {
    assert!(rt; is_text_of_1(rt.alloc(), TEXT_OF_1));
}

#[test]
fn lines_after_the_world(rt: HostRuntime) {
    let mut generator = Generator::new(2);
    assert!(rt; !gives(rt.alloc(), &mut generator, b""));
    assert!(rt; gives(rt.alloc(), &mut generator, b"1@l0 mkdir /d3/f7 0755\n"));
    assert!(rt; gives(rt.alloc(), &mut generator, b"1@l1 close 2\n"));
    assert!(rt; gives(rt.alloc(), &mut generator, b""));
}
