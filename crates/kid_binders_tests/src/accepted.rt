//! Instances of each rule, and what it makes of them.
use crate::notation::{Applied, is_spelled, ruled};
use kid_term::Terms;
use std::alloc::Global;
use std::process::Abort;

fn are_told(alloc: Global, conditions: &Terms, want: &str) -> bool {
    match conditions.items() {
        [] => want.is_empty(),
        [one] => is_spelled(alloc, one, want),
        _ => false,
    }
}

fn is_made(alloc: Global, made: Option<Applied>, condition: &str, want: &str) -> bool {
    match made {
        Some(Ok(made)) => are_told(alloc, &made.conditions, condition)
            && is_spelled(alloc, &made.term, want),
        _ => false,
    }
}

fn makes(rt: &impl Abort, alloc: Global, back: bool, rows: &[(u8, &str, &str, &str, &str)]) {
    for row in rows {
        let (rule, it, args, condition, want) = *row;
        let made = ruled(alloc, rule, back, it, args);
        assert!(rt;
            is_made(alloc, made, condition, want),
            "b{rule} at {it} {args}"
        );
    }
}

// a rule at a term with arguments, the condition that it gives, if any, and the new term
const FORTH: [(u8, &str, &str, &str, &str); 18] = [
    (1, "Ays<xy", "z", "", "Azs<xz"),
    (2, "AxE<xy", "", "", "T"),
    (3, "SxE<xy", "", "", "F"),
    (4, "Ax{z<xy", "", "", "<zy"),
    (5, "Sx{z<yx", "", "", "<yz"),
    (6, "Ax|st<xy", "", "", "&Axs<xyAxt<xy"),
    (7, "Sx|st<xy", "", "", "/Sxs<xySxt<xy"),
    (8, "Axs&<xy<yx", "", "", "&Axs<xyAxs<yx"),
    (9, "Sxs<xy", "", "", "!Axs!<xy"),
    (10, "AxsAyt<xy", "", "", "AytAxs<xy"),
    (11, "AxsT", "", "", "T"),
    (12, "Axs<xy", "t", "%ts", "&Axt<xyAxs<xy"),
    (13, "~zOxs<xy", "", "", "&~zs<zy"),
    (14, "AxOys<yz<xw", "", "", "Axs><xz<xw"),
    (15, "UxE+xy", "", "", "0"),
    (16, "Ux^zs+xy", "", "!~zs", "+Uxs+xy+zy"),
    (17, "~zIxs+xy", "", "", "Sxs=z+xy"),
    (18, "Axs<xy", "z", "~zs", "&<zyAxs<xy"),
];

#[test]
fn goes_forth(rt: HostRuntime) {
    makes(&rt, rt.alloc(), false, &FORTH);
}

const BACK: [(u8, &str, &str, &str, &str); 9] = [
    (6, "&Axs<xyAxt<xy", "", "", "Ax|st<xy"),
    (7, "/Sxs<xySxt<xy", "", "", "Sx|st<xy"),
    (8, "&Axs<xyAxs<yx", "", "", "Axs&<xy<yx"),
    (9, "!Axs!<xy", "", "", "Sxs<xy"),
    (10, "AytAxs<xy", "", "", "AxsAyt<xy"),
    // the outer name may stand in the inner set, though the new term then has no sort
    (10, "AytAxy<xy", "", "", "AxyAyt<xy"),
    (12, "&Axt<xyAxs<xy", "", "%ts", "Axs<xy"),
    (17, "Sxs=z+xy", "", "", "~zIxs+xy"),
    (17, "Sxs=zx", "", "", "~zIxsx"),
];

#[test]
fn goes_back(rt: HostRuntime) {
    makes(&rt, rt.alloc(), true, &BACK);
}

const CORNERS: [(u8, &str, &str, &str, &str); 13] = [
    // an inner binder of the name keeps its places, but for those in its set
    (4, "Ax{zAxs<xy", "", "", "Axs<xy"),
    (5, "Sx{zSxx<xy", "", "", "Sxz<xy"),
    (18, "AxsOxx<xy", "z", "~zs", "&Oxz<xyAxsOxx<xy"),
    // the name of both binders may be one
    (14, "AxOxs<xz<xw", "", "", "Axs><xz<xw"),
    (10, "AxsAxt<xy", "", "", "AxtAxs<xy"),
    // the name may stand in what is put in, where no binder is above its place
    (4, "Ax{+xy<xy", "", "", "<+xyy"),
    (1, "Ayz<xy", "z", "", "Azz<xz"),
    // the empty set beside another, as a part, and with a member
    (6, "Ax|sE<xy", "", "", "&Axs<xyAxE<xy"),
    (12, "Axs<xy", "E", "%Es", "&AxE<xyAxs<xy"),
    (16, "Ux^zE+xy", "", "!~zE", "+UxE+xy+zy"),
    // tags
    (4, "Ax{'a=xy", "", "", "='ay"),
    (2, "AxE=x'a", "", "", "T"),
    (17, "~'aIxs'b", "", "", "Sxs='a'b"),
];

#[test]
fn goes_round_corners(rt: HostRuntime) {
    makes(&rt, rt.alloc(), false, &CORNERS);
}
