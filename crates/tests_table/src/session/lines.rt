//! Which lines are no commands.
use super::{DONE, check_session};
use tests_support::Text;

/// Lines that are no commands, with a stroke between each two.
#[rattlefmt::skip]
const NO_COMMANDS: &[&str] = &[
    // Numbers past their range.
    "len 18446744073709551616|len 99999999999999999999999999|slice 0 0 18446744073709551616",
    "push 0 v9223372036854775808|push 0 v-9223372036854775809|push 0 v18446744073709551616",
    // Words that are no numbers, or no items.
    "len +5|len -0|len 5a|push 0 v+5|push 0 v--5|push 0 v|push 0 v-|push 0 1|push 0 __",
    // Words that are missing, or too many.
    "len|len 0 0|new 0|push 0|push 0 v1 v2|slice 0 1|slice 0 1 2 3|freeze 0 #",
    // `null` and `parts`.
    "null 0 prim|null 0 prim 1 1|null 0 text 1|parts 0 prim Int64|parts 0 prim Int64 2 v1",
    "parts 0 prim Int64 1 v1|parts 0 prim Int64 2 1|parts 0 prim Int128 - 1",
    "parts 0 prim Int64 - 9223372036854775808|parts 0 bool Boolean -|parts 0 bool Boolean - 012",
    "parts 0 bool Boolean - -|parts 0 bool Boolean - .1|parts 0 bool Boolean - 1 1|parts 0 bin Binary -",
    "parts 0 bin Binary - 61 0 1|parts 0 bin Binary - x6 0 1|parts 0 bin Binary - x61 0 x1",
    "parts 0 bin Binary - x61 0 2147483648|parts 0 bin Binary - x61 -2147483649 1",
    "parts 0 bin Binary 1- x61 0 1|parts 0 bin Binary -1 x61 0 1",
    // `slots` and `items`: digits that are none or too few, and bytes that are no text.
    "slots 0|slots 0 prim 1|slots 0 prim v1 __|items 0|items 0 prim _|items 0 utf8 t80|items 0 utf8 tC3",
    "items 0 utf8 tEDA080|items 0 utf8 tF4908080|items 0 utf8 t6|items 0 utf8 T61|items 0 bin x0g",
    "items 0 bin x0G|items 0 bin x:0|items 0 bin X00|items 0 bin x0|items 0 bool b|items 0 bool b2",
    "items 0 bool b01|items 0 bool B1|items 0 bool 1",
    // Lines that read.
    "value 0|get 0 0 0|isnull 0 v0|turns|turns 0 s|turns 0 s-1|turns 0 s18446744073709551616|turns 0 fb",
    "turns 0 F|nulls|list 0 0|type|held 0 0|bytes|offsets 0 0",
    // Lines that change.
    "clone 0|drop|mask 0|mask 0 --|mask 0 - -|mask 0 ..|mask 0 _|applymask 0|applymask 0 fill",
    "applymask 0 fill _|applymask 0 fill b1 b1|applymask 0 reverse b1|applymask 0 turn|applymask 0 b1|values",
    "values 0 _|applyvalues 0 Reverse|set 0 1|set 0 1 1|write 0 0 _",
    // Lines that grow, and lines that convert.
    "pushnull 0 0|pop|extend 0 v1 1|extendvalues 0 _|constant 0 1|constant 0 -1 v1|self 0|reserve 0 1",
    "shrink 0 0|thaw|nullable 0 0|to 0|to 0 Int128|to 0 other|to 0 int64|to 0 Int64 Int64|equal 0|indexes",
    "indexes -1|indexes 3 v1|indexes 3 9223372036854775808",
    // Lines of two tables.
    "wide|wide wide len 0|wide widen 0 0|widen 0",
    // Names that are not quite a command's.
    "Len 0|lens 0|le 0|len0|new 0 Prim|push 0 V1",
    // Bytes that no word has, and a comment that does not begin its line.
    " # a word, and no comment|len\t0|len 0\r|len 0 \u{7f}|len 0 \u{e9}|\t|\0",
];

#[test]
fn a_line_that_is_no_command_is_reported(rt: HostRuntime) {
    for lines in NO_COMMANDS {
        for line in lines.split('|') {
            let expected = ("status 2 line 1: not a command", "");
            check_session(&rt, line, line.as_bytes(), expected);
        }
    }
}

/// Names, inputs, the numbers of their first lines that are no commands, and the replies if there is none.
#[rattlefmt::skip]
const NUMBERED: &[(&str, &str, usize, &str)] = &[
    ("nothing", "", 0, ""),
    ("empty lines", "\n\n", 0, ""),
    ("any bytes in comments", "# any \u{e9}\tbyte\n   \n#", 0, ""),
    ("behind lines that are passed over", "\n# one\n  \nlen 0\nlen\n", 5, ""),
    ("the first of two", "len 0\nlen\nlen", 2, ""),
    ("a command", "len 0", 0, "not met\n"),
];

#[test]
fn the_first_line_that_is_no_command_is_numbered(rt: HostRuntime) {
    for (case, input, number, replies) in NUMBERED {
        let ended = match *number {
            0 => Text::of(DONE),
            number => Text::of(format_args!("status 2 line {number}: not a command")),
        };
        check_session(&rt, *case, input.as_bytes(), (ended.as_str(), *replies));
    }
}

/// A text longer than what is looked at at a time, the end of which lies in a character.
#[test]
fn a_long_text_is_tested_to_its_end(rt: HostRuntime) {
    for (last, ended, replies) in [
        (b"C3A9", DONE, "ok\n"),
        (b"C361", "status 2 line 1: not a command", ""),
    ] {
        let mut line = Vec::new(rt.alloc());
        line.extend_from_slice(b"items 0 utf8 t61")
            .expect(&rt, "memory");
        for _ in 0..49 {
            line.extend_from_slice(b"C3A9").expect(&rt, "memory");
        }
        line.extend_from_slice(last).expect(&rt, "memory");
        check_session(&rt, "a long text", &line, (ended, replies));
        drop(line);
    }
}
