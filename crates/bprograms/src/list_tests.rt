//! What stands in the pictures of a source.
use crate::command_tests::serves;
use std::fs;
use std::test::Fail;

// A source with a vector, a string and a frame with automatics.
const MEMORY: &str = "\
total 0;
prime[4] 2, 3, 5;
firm \"B&b <1>\";
sum(v, n) {
    extrn total;
    auto i;
    i = 0;
    while(i < n)
        total =+ v[i++];
    return(total);
}
main() {
    extrn prime;
    auto t, w 2;
    w[1] = 7;
    t = sum(prime, 3);
}
";

// Commands, each with `~` and the title of its picture, `~`, a piece of it, `~` and how many boxes it has.
const PICTURES: &str = "\
b map --svg m.b~memory before the run~>'&lt;1'</text>~21
b map --steps 48 m.b~memory after 48 steps; filled words have changed~<rect class='changed' x='160' y='106'~29
b map --svg --edition 2 --steps 48 m.b~memory after 48 steps; filled words have changed~>w[0]</text>~29
b map --steps 1000 m.b~memory where the run is over, after 83 steps; filled words have changed~>data end 21</text>~26";

#[test]
fn pictures(rt: HostRuntime) -> Result<(), Fail> {
    fs::write(&rt, "m.b", MEMORY.as_bytes())?;
    for row in PICTURES.split('\n') {
        let mut parts = row.split('~');
        let words = parts.next().unwrap_or("");
        let (out, diag) = serves(&rt, words, "", 0)?;
        assert!(rt; diag.bytes().is_empty(), "the line of {words}");
        let picture = str::from_utf8(out.bytes()).unwrap_or("");
        assert!(rt;
            picture.contains(parts.next().unwrap_or("")),
            "the title of {words}"
        );
        assert!(rt;
            picture.contains(parts.next().unwrap_or("")),
            "a piece of {words}"
        );
        let boxes = parts.next().unwrap_or("").parse::<usize>().unwrap_or(0);
        assert_eq!(rt;
            picture.matches(" width='56' ").count(),
            boxes,
            "the boxes of {words}"
        );
    }
    fs::remove_file(&rt, "m.b")?;
    Ok(())
}
