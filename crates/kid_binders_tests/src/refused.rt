//! Terms that are no instances, and names that would be captured.
use crate::notation::{Applied, ruled};
use kid_binders::RuleFault;
use std::alloc::Global;
use std::process::Abort;

fn is_refused(made: Option<Applied>, want: RuleFault) -> bool {
    match made {
        Some(Err(fault)) => fault == want,
        _ => false,
    }
}

fn refuses(rt: &impl Abort, alloc: Global, back: bool, rows: &[(u8, &str, &str)], want: RuleFault) {
    for row in rows {
        let (rule, it, args) = *row;
        let made = ruled(alloc, rule, back, it, args);
        assert!(rt; is_refused(made, want), "b{rule} at {it} {args}");
    }
}

// a rule at a term with arguments
const NO_MATCH: [(u8, &str, &str); 24] = [
    (1, "<xy", "z"),
    (1, "Ays<xy", "3"),
    (2, "Axs<xy", ""),
    (2, "SxE<xy", ""),
    (3, "Sx{z<xy", ""),
    (4, "AxE<xy", ""),
    (4, "Sx{z<xy", ""),
    (5, "Sx^zE<xy", ""),
    (6, "Sx|st<xy", ""),
    (6, "Ax^st<xy", ""),
    (7, "Ax|st<xy", ""),
    (8, "Axs/<xy<yx", ""),
    (9, "Axs<xy", ""),
    (10, "AxsSyt<xy", ""),
    (11, "AxsF", ""),
    (12, "Sxs<xy", "t"),
    (13, "~zIxs<xy", ""),
    (13, "%zOxs<xy", ""),
    (14, "AxIys<yz<xw", ""),
    (14, "SxOys<yz<xw", ""),
    (15, "Ux{z+xy", ""),
    (16, "Ux|zs+xy", ""),
    (17, "~zOxs+xy", ""),
    (18, "Sxs<xy", "z"),
];

#[test]
fn knows_no_instance(rt: HostRuntime) {
    refuses(&rt, rt.alloc(), false, &NO_MATCH, RuleFault::NoMatch);
}

const NO_MATCH_BACK: [(u8, &str, &str); 17] = [
    // another name, another body, another connective
    (6, "&Axs<xyAyt<xy", ""),
    (6, "&Axs<xyAxt<yx", ""),
    (6, "/Axs<xyAxt<xy", ""),
    (7, "/Sxs<xySyt<xy", ""),
    (7, "/Sxs<xySxt<yx", ""),
    (7, "&Sxs<xySxt<xy", ""),
    (8, "&Axs<xyAys<xy", ""),
    (8, "&Axs<xyAxt<xy", ""),
    (8, "/Axs<xyAxs<xy", ""),
    (9, "!Axs<xy", ""),
    (9, "!Sxs!<xy", ""),
    (10, "AytSxs<xy", ""),
    (12, "&Axt<xyAyt<xy", ""),
    (12, "&Axt<xyAxs<yx", ""),
    (12, "&Axt<xySxs<xy", ""),
    (17, "Axs=z+xy", ""),
    (17, "Sxs<z+xy", ""),
];

#[test]
fn knows_no_instance_back(rt: HostRuntime) {
    refuses(&rt, rt.alloc(), true, &NO_MATCH_BACK, RuleFault::NoMatch);
}

const COUNTS: [(u8, &str, &str); 9] = [
    (1, "Ays<xy", ""),
    (1, "Ays<xy", "zz"),
    (2, "AxE<xy", "z"),
    (12, "Axs<xy", ""),
    (12, "Axs<xy", "tt"),
    (18, "Axs<xy", ""),
    // there are no such rules
    (0, "AxE<xy", ""),
    (19, "Axs<xy", "t"),
    (255, "AxE<xy", ""),
];

#[test]
fn counts_arguments(rt: HostRuntime) {
    refuses(&rt, rt.alloc(), false, &COUNTS, RuleFault::NoMatch);
}

// rules without a direction back, at what they would make; and one that has it, with an argument
const ONE_WAY: [(u8, &str, &str); 13] = [
    (1, "Azs<xz", "y"),
    (2, "T", ""),
    (3, "F", ""),
    (4, "<zy", ""),
    (5, "<yz", ""),
    (11, "T", ""),
    (13, "&~zs<zy", ""),
    (14, "Axs><xz<xw", ""),
    (15, "0", ""),
    (16, "+Uxs+xy+zy", ""),
    (18, "&<zyAxs<xy", ""),
    (18, "&<zyAxs<xy", "z"),
    (12, "&Axt<xyAxs<xy", "t"),
];

#[test]
fn goes_one_way(rt: HostRuntime) {
    refuses(&rt, rt.alloc(), true, &ONE_WAY, RuleFault::NoMatch);
}

const CAPTURED: [(u8, &str, &str); 11] = [
    // the new name stands in the body, free or bound
    (1, "Ays<xy", "x"),
    (1, "AysAzt<zy", "z"),
    // what is put in has a name that is bound above the place
    (4, "Ax{yAyt<xy", ""),
    (5, "Sx{yAyt<xy", ""),
    (13, "~yOxsAyt<xy", ""),
    (14, "AxOysAxt<xy<xw", ""),
    (16, "Ux^ysUyt+xy", ""),
    (18, "AxsAyt<xy", "y"),
    // a name that stands free in the other set, or in the member
    (10, "AxsAyx<xy", ""),
    (14, "AxOys<xy<xw", ""),
    (17, "~xIxs+xy", ""),
];

#[test]
fn captures_no_name(rt: HostRuntime) {
    refuses(&rt, rt.alloc(), false, &CAPTURED, RuleFault::Capture);
}

const CAPTURED_BACK: [(u8, &str, &str); 2] = [(10, "AyxAxs<xy", ""), (17, "Sxs=x+xy", "")];

#[test]
fn captures_no_name_back(rt: HostRuntime) {
    refuses(&rt, rt.alloc(), true, &CAPTURED_BACK, RuleFault::Capture);
}
