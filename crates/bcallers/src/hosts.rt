use bhost::calls::{
    UNREADY, Whereabouts, begin, close, column, copy, end, feed, find, forget, go_on, limit, load,
    look, name_of, read, store, swap, take, tell, unload,
};
use bhost::symbols::{AUTOMATIC_VECTOR, FUNCTION, VECTOR};
use bhost::{Host, Query, Symbol};
use bsession::Limits;
use btools::{CodeText, Origin};
use bword::Edition;
use std::test::Fail;

// Writes each character but one, until the input ends.
const SOURCE: &[u8] =
    b"n; main() { extrn n; auto c; while((c = getchar()) != '*e') { n++; putchar(c + 1); } exit(n); }";

#[test]
fn a_program_is_held_with_its_session(rt: HostRuntime) -> Result<(), Fail> {
    let alloc = rt.alloc();
    let mut host = Host::none();
    assert_eq!(rt;
        load(alloc, b"main() {", Origin::Source(Edition::One), &mut host),
        1
    );
    assert_eq!(rt;
        load(alloc, SOURCE, Origin::Source(Edition::One), &mut host),
        0
    );
    assert_eq!(rt; begin(alloc, &mut host), 0);
    let mut value = 7;
    assert_eq!(rt; go_on(alloc, &mut host, 1000, &mut value), 133);
    assert_eq!(rt; feed(alloc, &mut host, b"HAL"), 0);
    assert_eq!(rt; go_on(alloc, &mut host, 1000, &mut value), 133);
    let mut room = [0; 2];
    let mut count = 0;
    assert_eq!(rt; take(alloc, &mut host, &mut room, &mut count), 0);
    assert!(rt; count == 2 && room == *b"IB");
    let mut word = 0;
    assert_eq!(rt; read(alloc, &mut host, 7, &mut word), 0);
    assert_eq!(rt; word, 3);
    assert_eq!(rt; end(alloc, &mut host), 0);
    assert_eq!(rt; unload(alloc, &mut host), 0);
    host.forget();
    Ok(())
}

#[test]
fn a_program_whose_input_is_closed(rt: HostRuntime) -> Result<(), Fail> {
    let alloc = rt.alloc();
    let mut host = Host::none();
    assert_eq!(rt;
        load(alloc, SOURCE, Origin::Source(Edition::One), &mut host),
        0
    );
    assert_eq!(rt; begin(alloc, &mut host), 0);
    assert_eq!(rt; store(alloc, &mut host, 7, 9), 0);
    assert_eq!(rt; close(alloc, &mut host), 0);
    assert_eq!(rt; feed(alloc, &mut host, b"x"), 135);
    let mut value = 7;
    assert_eq!(rt; go_on(alloc, &mut host, 1000, &mut value), 0);
    assert_eq!(rt; value, 9);
    assert_eq!(rt; end(alloc, &mut host), 0);
    assert_eq!(rt; unload(alloc, &mut host), 0);
    host.forget();
    Ok(())
}

#[test]
fn a_host_tells_its_place(rt: HostRuntime) -> Result<(), Fail> {
    let alloc = rt.alloc();
    let mut host = Host::none();
    assert_eq!(rt;
        load(alloc, SOURCE, Origin::Source(Edition::One), &mut host),
        0
    );
    assert_eq!(rt; begin(alloc, &mut host), 0);
    assert_eq!(rt; limit(alloc, &mut host, Limits::none()), 0);
    let mut there = Whereabouts {
        function: 0,
        place: 0,
        callers: 9,
        steps: 7,
        line: 0,
    };
    assert_eq!(rt; look(alloc, &mut host, &mut there), 0);
    assert!(rt; there.callers == 0 && there.steps == 0 && there.line == 1);
    let mut name = [0; 4];
    let mut count = 0;
    assert_eq!(rt;
        name_of(alloc, &mut host, there.function, &mut name, &mut count),
        0
    );
    assert!(rt; count == 4 && name == *b"main");
    assert_eq!(rt; end(alloc, &mut host), 0);
    assert_eq!(rt; unload(alloc, &mut host), 0);
    host.forget();
    Ok(())
}

#[test]
fn a_host_tells_its_column(rt: HostRuntime) -> Result<(), Fail> {
    let alloc = rt.alloc();
    let mut host = Host::none();
    let text = CodeText {
        code: b"F main 0 0 0 0 2\nc 0\nr\nE\n",
        lines: Some(b"4\n7 12\n"),
        source: None,
        names: None,
    };
    assert_eq!(rt; load(alloc, b"", Origin::Code(text), &mut host), 0);
    assert_eq!(rt; begin(alloc, &mut host), 0);
    let mut told = 3;
    assert_eq!(rt; column(alloc, &mut host, &mut told), 0);
    assert_eq!(rt; told, 0);
    let mut value = 7;
    assert_eq!(rt; go_on(alloc, &mut host, 1, &mut value), 131);
    assert_eq!(rt; column(alloc, &mut host, &mut told), 0);
    assert_eq!(rt; told, 12);
    assert_eq!(rt; end(alloc, &mut host), 0);
    assert_eq!(rt; unload(alloc, &mut host), 0);
    host.forget();
    Ok(())
}

#[test]
fn a_host_tells_what_names_stand_for(rt: HostRuntime) -> Result<(), Fail> {
    let alloc = rt.alloc();
    let mut host = Host::none();
    assert_eq!(rt;
        load(
            alloc,
            b"v[3]; f(x) { auto w 2; return(x + w); } main() f(1);",
            Origin::Source(Edition::One),
            &mut host
        ),
        0
    );
    let mut symbol = Symbol::blank();
    assert_eq!(rt; find(alloc, &mut host, b"f", &mut symbol), 0);
    assert!(rt; symbol.kind == FUNCTION && symbol.address == 12 && symbol.frame == 5);
    assert_eq!(rt; tell(alloc, &mut host, Query::At(11), &mut symbol), 0);
    assert!(rt; symbol.kind == VECTOR && symbol.name[0] == b'v' && symbol.name[1] == 0);
    assert_eq!(rt; tell(alloc, &mut host, Query::Local(13, 1), &mut symbol), 0);
    assert!(rt; symbol.kind == AUTOMATIC_VECTOR && symbol.address == 1 && symbol.words == 4);
    assert_eq!(rt;
        tell(alloc, &mut host, Query::Local(13, 2), &mut symbol),
        132
    );
    assert!(rt; symbol.kind == 0 && symbol.name[0] == 0);
    assert_eq!(rt; find(alloc, &mut host, b"1f", &mut symbol), 132);
    assert_eq!(rt; unload(alloc, &mut host), 0);
    host.forget();
    Ok(())
}

#[test]
fn a_host_keeps_copies(rt: HostRuntime) -> Result<(), Fail> {
    let alloc = rt.alloc();
    let mut host = Host::none();
    assert_eq!(rt;
        load(alloc, SOURCE, Origin::Source(Edition::One), &mut host),
        0
    );
    assert_eq!(rt; begin(alloc, &mut host), 0);
    let mut value = 7;
    assert_eq!(rt; go_on(alloc, &mut host, 1000, &mut value), 133);
    assert_eq!(rt; copy(alloc, &mut host), 0);
    assert_eq!(rt; store(alloc, &mut host, 7, 9), 0);
    assert_eq!(rt; swap(alloc, &mut host, 1), 132);
    assert_eq!(rt; swap(alloc, &mut host, 0), 0);
    let mut word = 7;
    assert_eq!(rt; read(alloc, &mut host, 7, &mut word), 0);
    assert_eq!(rt; word, 0);
    assert_eq!(rt; feed(alloc, &mut host, b"HAL"), 0);
    assert_eq!(rt; close(alloc, &mut host), 0);
    assert_eq!(rt; go_on(alloc, &mut host, 1000, &mut value), 0);
    assert_eq!(rt; value, 3);
    assert_eq!(rt; swap(alloc, &mut host, 0), 0);
    assert_eq!(rt; forget(alloc, &mut host, 0), 0);
    assert_eq!(rt; forget(alloc, &mut host, 0), 132);
    assert_eq!(rt; go_on(alloc, &mut host, 1000, &mut value), 133);
    assert_eq!(rt; read(alloc, &mut host, 7, &mut word), 0);
    assert_eq!(rt; word, 9);
    assert_eq!(rt; copy(alloc, &mut host), 0);
    assert_eq!(rt; end(alloc, &mut host), 0);
    assert_eq!(rt; unload(alloc, &mut host), 0);
    host.forget();
    Ok(())
}

#[test]
fn a_host_that_is_not_ready(rt: HostRuntime) -> Result<(), Fail> {
    let alloc = rt.alloc();
    let mut host = Host::none();
    let mut value = 7;
    assert_eq!(rt; go_on(alloc, &mut host, 1, &mut value), UNREADY);
    assert_eq!(rt; value, 0);
    assert_eq!(rt; unload(alloc, &mut host), UNREADY);
    assert_eq!(rt;
        load(alloc, SOURCE, Origin::Source(Edition::One), &mut host),
        0
    );
    assert_eq!(rt; end(alloc, &mut host), UNREADY);
    assert_eq!(rt; begin(alloc, &mut host), 0);
    assert_eq!(rt; begin(alloc, &mut host), UNREADY);
    assert_eq!(rt; unload(alloc, &mut host), UNREADY);
    assert_eq!(rt; end(alloc, &mut host), 0);
    assert_eq!(rt; unload(alloc, &mut host), 0);
    host.forget();
    Ok(())
}
