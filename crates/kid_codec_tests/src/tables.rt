//! Texts that are read and printed back, and texts that are refused.
use crate::back::{
    is_fault, is_named, is_text, number, sort_back, sort_fault, sort_holds_tags, term_back,
    term_fault, term_holds_tags, value_back, value_fault,
};
use kid_codec::CodecFault;
use std::alloc::Global;
use std::process::Abort;

fn terms_read_back(rt: &impl Abort, alloc: Global, terms: &[&str]) {
    for term in terms {
        assert!(rt; is_text(term_back(alloc, term), term), "at {term}");
    }
}

fn terms_have_no_form(rt: &impl Abort, alloc: Global, terms: &[&str]) {
    for term in terms {
        assert!(rt;
            is_fault(term_fault(alloc, term), CodecFault::Form),
            "at {term}"
        );
    }
}

fn terms_fail(rt: &impl Abort, alloc: Global, cases: &[(&str, CodecFault)]) {
    for case in cases {
        let (term, want) = *case;
        assert!(rt; is_fault(term_fault(alloc, term), want), "at {term}");
    }
}

fn sorts_read_back(rt: &impl Abort, alloc: Global, sorts: &[&str]) {
    for sort in sorts {
        assert!(rt; is_text(sort_back(alloc, sort), sort), "at {sort}");
    }
}

fn sorts_fail(rt: &impl Abort, alloc: Global, cases: &[(&str, CodecFault)]) {
    for case in cases {
        let (sort, want) = *case;
        assert!(rt; is_fault(sort_fault(alloc, sort), want), "at {sort}");
    }
}

fn values_read(rt: &impl Abort, alloc: Global, cases: &[(&str, &str, &str)]) {
    for case in cases {
        let (sort, value, want) = *case;
        assert!(rt; is_text(value_back(alloc, sort, value), want), "at {value}");
    }
}

fn values_have_no_form(rt: &impl Abort, alloc: Global, cases: &[(&str, &str)]) {
    for case in cases {
        let (sort, value) = *case;
        assert!(rt;
            is_fault(value_fault(alloc, sort, value), CodecFault::Form),
            "at {value}"
        );
    }
}

fn sorts_hold_tags(rt: &impl Abort, alloc: Global, cases: &[(&str, bool)]) {
    for case in cases {
        let (sort, want) = *case;
        assert!(rt; sort_holds_tags(alloc, sort) == Some(want), "at {sort}");
    }
}

fn terms_hold_tags(rt: &impl Abort, alloc: Global, cases: &[(&str, bool)]) {
    for case in cases {
        let (term, want) = *case;
        assert!(rt; term_holds_tags(alloc, term) == Some(want), "at {term}");
    }
}

fn numbers_are(rt: &impl Abort, cases: &[(&str, Option<i64>)]) {
    for case in cases {
        let (word, want) = *case;
        assert!(rt; number(word) == want, "at {word}");
    }
}

fn names_are(rt: &impl Abort, cases: &[(&str, bool)]) {
    for case in cases {
        let (word, want) = *case;
        assert!(rt; is_named(word) == want, "at {word}");
    }
}

const NUMBERS: [(&str, Option<i64>); 12] = [
    ("0", Some(0)),
    ("-0", None),
    ("01", None),
    ("+1", None),
    ("-", None),
    ("-12", Some(-12)),
    ("1x", None),
    ("4611686018427387904", Some(4611686018427387904)),
    ("4611686018427387905", None),
    ("-4611686018427387904", Some(-4611686018427387904)),
    ("-4611686018427387905", None),
    ("18446744073709551616", None),
];

#[test]
fn reads_numbers(rt: HostRuntime) {
    numbers_are(&rt, &NUMBERS);
}

const NAMES: [(&str, bool); 12] = [
    ("low", true),
    ("m", true),
    ("e1", false),
    ("e1x", true),
    ("e", true),
    ("union", false),
    ("Low", false),
    ("x_y", false),
    ("-x", false),
    ("", false),
    ("abcdefghijklmnopqrstuvwxyz-01234", true),
    ("abcdefghijklmnopqrstuvwxyz-012345", false),
];

#[test]
fn knows_names(rt: HostRuntime) {
    names_are(&rt, &NAMES);
}

const SORTS: [&str; 6] = [
    "bool\n",
    "(int -4611686018427387904 4611686018427387904)\n",
    "(pair bool (int 0 0))\n",
    "(set (int 1 65536))\n",
    "(seq (seq bool 0) 65536)\n",
    "(map (int 1 3) (set bool))\n",
];

#[test]
fn reads_sorts_back(rt: HostRuntime) {
    sorts_read_back(&rt, rt.alloc(), &SORTS);
}

const REFUSED_SORTS: [(&str, CodecFault); 12] = [
    ("never", CodecFault::Form),
    ("(set)", CodecFault::Form),
    ("(int 1)", CodecFault::Form),
    ("(int 0 4611686018427387905)", CodecFault::Form),
    ("(seq bool n)", CodecFault::Form),
    ("(pair (int 2 1) never)", CodecFault::Form),
    ("(pair (int 2 1) bool)", CodecFault::Sort),
    ("(seq bool 65537)", CodecFault::Sort),
    ("(seq bool 4294967296)", CodecFault::Sort),
    ("(seq bool -1)", CodecFault::Sort),
    ("(set (int 1 65537))", CodecFault::Sort),
    ("(map (int 1 65537) bool)", CodecFault::Sort),
];

#[test]
fn refuses_sorts(rt: HostRuntime) {
    sorts_fail(&rt, rt.alloc(), &REFUSED_SORTS);
}

const VALUES: [(&str, &str, &str); 6] = [
    ("(int -3 3)", "-3", "-3\n"),
    (
        "(pair bool bool)",
        "(pair true false)",
        "(pair true false)\n",
    ),
    ("(set (int 1 9))", "(set 3 1 9 1)", "(set 1 3 9)\n"),
    ("(seq (int 1 9) 3)", "(seq 3 1 3)", "(seq 3 1 3)\n"),
    ("(seq bool 0)", "(seq)", "(seq)\n"),
    (
        "(map (int 1 9) bool)",
        "(map (2 true) (1 false))",
        "(map (1 false) (2 true))\n",
    ),
];

#[test]
fn reads_values_in_any_order(rt: HostRuntime) {
    values_read(&rt, rt.alloc(), &VALUES);
}

const REFUSED_VALUES: [(&str, &str); 8] = [
    ("(int 1 3)", "4"),
    ("(int 0 1)", "01"),
    ("bool", "x"),
    ("(pair bool bool)", "(pair true)"),
    ("(set bool)", "(set true 1)"),
    ("(seq bool 1)", "(seq true true)"),
    ("(map bool bool)", "(map (true true) (true true))"),
    ("(map bool bool)", "(map true)"),
];

#[test]
fn refuses_values(rt: HostRuntime) {
    values_have_no_form(&rt, rt.alloc(), &REFUSED_VALUES);
}

const TERMS: [&str; 8] = [
    "x\n",
    "-12\n",
    "false\n",
    "(safe)\n",
    "(safe (if p 1 (neg x)) true)\n",
    "(cast (set (int 1 40)) (f x))\n",
    "(sumof x (f 1) (mul x (max x 2)))\n",
    "(all x s (some y s (implies (lt x y) (not (eq x y)))))\n",
];

#[test]
fn reads_terms_back(rt: HostRuntime) {
    terms_read_back(&rt, rt.alloc(), &TERMS);
}

const REFUSED_TERMS: [(&str, CodecFault); 14] = [
    ("()", CodecFault::Form),
    ("((f) x)", CodecFault::Form),
    ("-0", CodecFault::Form),
    ("bool", CodecFault::Form),
    ("(not p q)", CodecFault::Form),
    ("(if p x)", CodecFault::Form),
    ("(let x 1)", CodecFault::Form),
    ("(e1 x)", CodecFault::Form),
    ("(cast never x)", CodecFault::Form),
    ("(all 1 s true)", CodecFault::Form),
    ("(all x s)", CodecFault::Form),
    ("(and (cast (int 2 1) x) (not))", CodecFault::Form),
    ("(and (cast (int 2 1) x) (f))", CodecFault::Sort),
    ("(image x (cast (seq bool -1) s) x)", CodecFault::Sort),
];

#[test]
fn refuses_terms(rt: HostRuntime) {
    terms_fail(&rt, rt.alloc(), &REFUSED_TERMS);
}

const OPERATORS: [&str; 15] = [
    "(pair (fst p) (snd p))\n",
    "(set)\n",
    "(set 1 2)\n",
    "(range (card s) (sum s))\n",
    "(and (in 1 s) (subset s t))\n",
    "(union (inter s t) (diff s t))\n",
    "(with (least s 0) (without 1 s))\n",
    "(seq)\n",
    "(seq 3 1 3)\n",
    "(snoc (rest v (len v)) (at v 1 0))\n",
    "(or (prefix v w) (in (total v) (items v)))\n",
    "(map)\n",
    "(put (drop m x) x (get m x 0))\n",
    "(fill (union (dom m) (ran m)) true)\n",
    "(implies (fits m n) (submap (narrow m n) n))\n",
];

#[test]
fn reads_operators_back(rt: HostRuntime) {
    terms_read_back(&rt, rt.alloc(), &OPERATORS);
}

const REFUSED_OPERATORS: [&str; 11] = [
    "(pair x)",
    "(fst p q)",
    "(range 1)",
    "(card)",
    "(at v 1)",
    "(total v w)",
    "(rest v)",
    "(map x)",
    "(get m x)",
    "(narrow m n x)",
    "set",
];

#[test]
fn refuses_operators(rt: HostRuntime) {
    terms_have_no_form(&rt, rt.alloc(), &REFUSED_OPERATORS);
}

const WORDS_AND_ROWS: [&str; 9] = [
    "(wenc 1 40 (set 3))\n",
    "(wdec -5 3 r)\n",
    "(wor (wand r s) (wnot s r))\n",
    "(add (wcard r) (wleast 1 (f x) r))\n",
    "(win 0 (add x 1) r)\n",
    "(renc 1 4097 (map))\n",
    "(rdec -4611686018427387904 g)\n",
    "(rget 1 (rput 1 (rdrop 1 g x) y 3) z 0)\n",
    "(image x (wdec 1 63 r) (wcard x))\n",
];

#[test]
fn reads_operators_on_words_and_rows_back(rt: HostRuntime) {
    terms_read_back(&rt, rt.alloc(), &WORDS_AND_ROWS);
}

const REFUSED_WORDS_AND_ROWS: [&str; 15] = [
    "(wdec (add 1 0) 40 5)",
    "(wdec 1 k 5)",
    "(wenc lo 40 s)",
    "(wenc 1 true s)",
    "(wenc 1 40)",
    "(wor r)",
    "(wcard r r)",
    "(win lo 1 r)",
    "(wleast (neg 1) 0 r)",
    "(renc 1 (cast (int 2 1) x) m)",
    "(rdec lo g)",
    "(rget g 1 x 0)",
    "(rput 1 g x)",
    "(rdrop x g x)",
    "wenc",
];

#[test]
fn refuses_operators_on_words_and_rows(rt: HostRuntime) {
    terms_have_no_form(&rt, rt.alloc(), &REFUSED_WORDS_AND_ROWS);
}

const ENUMS: [&str; 4] = [
    "(enum red)\n",
    "(enum blue enum red)\n",
    "(enum a a-b ab abc b)\n",
    "(map (int 1 50) (enum blue red))\n",
];

#[test]
fn reads_enums_back(rt: HostRuntime) {
    sorts_read_back(&rt, rt.alloc(), &ENUMS);
}

const REFUSED_ENUMS: [(&str, CodecFault); 13] = [
    ("enum", CodecFault::Form),
    ("(enum Red)", CodecFault::Form),
    ("(enum 'red)", CodecFault::Form),
    ("(enum true)", CodecFault::Form),
    ("(enum red e1)", CodecFault::Form),
    ("(enum red red 1)", CodecFault::Form),
    ("(enum (red))", CodecFault::Form),
    ("(enum)", CodecFault::Sort),
    ("(enum red blue)", CodecFault::Sort),
    ("(enum red red)", CodecFault::Sort),
    ("(enum ab a)", CodecFault::Sort),
    ("(set (enum))", CodecFault::Sort),
    ("(pair (enum blue red blue) bool)", CodecFault::Sort),
];

#[test]
fn refuses_enums(rt: HostRuntime) {
    sorts_fail(&rt, rt.alloc(), &REFUSED_ENUMS);
}

/// Two letters each: 64 names, and then one more.
const MANY_NAMES: [&str; 1] = [
    "(enum cs ct cu cv cw cx cy cz ds dt du dv dw dx dy dz fs ft fu fv fw fx fy fz gs gt gu gv gw gx gy gz hs ht hu hv hw hx hy hz js jt ju jv jw jx jy jz ks kt ku kv kw kx ky kz ns nt nu nv nw nx ny nz)\n",
];

#[test]
fn reads_64_names(rt: HostRuntime) {
    sorts_read_back(&rt, rt.alloc(), &MANY_NAMES);
}

const TOO_MANY_NAMES: [(&str, CodecFault); 1] = [(
    "(enum cs ct cu cv cw cx cy cz ds dt du dv dw dx dy dz fs ft fu fv fw fx fy fz gs gt gu gv gw gx gy gz hs ht hu hv hw hx hy hz js jt ju jv jw jx jy jz ks kt ku kv kw kx ky kz ns nt nu nv nw nx ny nz q)",
    CodecFault::Sort,
)];

#[test]
fn refuses_65_names(rt: HostRuntime) {
    sorts_fail(&rt, rt.alloc(), &TOO_MANY_NAMES);
}

const TAGS: [(&str, &str, &str); 4] = [
    ("(enum blue red)", "'red", "'red\n"),
    (
        "(set (enum a a-b ab))",
        "(set 'ab 'a-b 'ab 'a)",
        "(set 'a 'a-b 'ab)\n",
    ),
    (
        "(map (enum blue red) bool)",
        "(map ('red true) ('blue false))",
        "(map ('blue false) ('red true))\n",
    ),
    (
        "(pair (enum enum) bool)",
        "(pair 'enum true)",
        "(pair 'enum true)\n",
    ),
];

#[test]
fn reads_tags(rt: HostRuntime) {
    values_read(&rt, rt.alloc(), &TAGS);
}

const REFUSED_TAGS: [(&str, &str); 10] = [
    ("(enum blue red)", "red"),
    ("(enum blue red)", "'green"),
    ("(enum blue red)", "'"),
    ("(enum blue red)", "''red"),
    ("(enum blue red)", "'Red"),
    ("(enum blue red)", "'red'"),
    ("(enum blue red)", "('red)"),
    ("(enum blue red)", "1"),
    ("bool", "'true"),
    ("(map (enum a b) bool)", "(map ('a true) ('a true))"),
];

#[test]
fn refuses_tags(rt: HostRuntime) {
    values_have_no_form(&rt, rt.alloc(), &REFUSED_TAGS);
}

const TERMS_WITH_TAGS: [&str; 5] = [
    "'red\n",
    "(eq x 'red)\n",
    "(enum 'a b)\n",
    "(cast (enum blue red) (f 'blue))\n",
    "(all x (set 'blue 'red) (in x enum))\n",
];

#[test]
fn reads_terms_with_tags_back(rt: HostRuntime) {
    terms_read_back(&rt, rt.alloc(), &TERMS_WITH_TAGS);
}

const REFUSED_TERMS_WITH_TAGS: [(&str, CodecFault); 8] = [
    ("'", CodecFault::Form),
    ("'true", CodecFault::Form),
    ("'e1", CodecFault::Form),
    ("'Red", CodecFault::Form),
    ("('f x)", CodecFault::Form),
    ("(all 'x s true)", CodecFault::Form),
    ("(cast (enum 'a) x)", CodecFault::Form),
    ("(cast (enum b a) x)", CodecFault::Sort),
];

#[test]
fn refuses_terms_with_tags(rt: HostRuntime) {
    terms_fail(&rt, rt.alloc(), &REFUSED_TERMS_WITH_TAGS);
}

const SORTS_WITH_TAGS: [(&str, bool); 9] = [
    ("bool", false),
    ("(int 1 2)", false),
    ("(pair bool (set (int 1 2)))", false),
    ("(enum a)", true),
    ("(set (enum a))", true),
    ("(seq (enum a) 3)", true),
    ("(map bool (enum a))", true),
    ("(map (enum a) bool)", true),
    ("(pair bool (set (enum a)))", true),
];

#[test]
fn tells_sorts_with_tags(rt: HostRuntime) {
    sorts_hold_tags(&rt, rt.alloc(), &SORTS_WITH_TAGS);
}

const TERMS_THAT_HOLD_TAGS: [(&str, bool); 8] = [
    ("x", false),
    ("(f true 1 (cast bool x))", false),
    ("(all x s (in x t))", false),
    ("'a", true),
    ("(f x 'a)", true),
    ("(cast (set (enum a)) x)", true),
    ("(all x (set 'a) true)", true),
    ("(all x s (eq x 'a))", true),
];

#[test]
fn tells_terms_with_tags(rt: HostRuntime) {
    terms_hold_tags(&rt, rt.alloc(), &TERMS_THAT_HOLD_TAGS);
}
