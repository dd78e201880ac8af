//! Each law as it is written.
use crate::notation::{Row, are_names, are_spelled, is_spelled};
use kid_laws::{LawFault, LawKind, Pattern, pattern};
use std::alloc::Global;
use std::process::Abort;

fn is_written(alloc: Global, found: &Result<Pattern, LawFault>, row: &Row) -> bool {
    let (_, names, _, conditions, left, right) = *row;
    match found {
        Ok(it) => are_names(&it.variables, names)
            && are_spelled(alloc, &it.conditions, conditions)
            && is_spelled(alloc, &it.left, left)
            && is_spelled(alloc, &it.right, right),
        Err(_) => false,
    }
}

fn writes(rt: &impl Abort, alloc: Global, kind: LawKind, rows: &[Row]) {
    for row in rows {
        let found = pattern(alloc, kind, row.0);
        assert!(rt; is_written(alloc, &found, row), "law {}", row.0);
    }
}

// the number, the variables, themselves, the conditions one behind the other, and the sides
const EQUATIONS: [Row; 48] = [
    (1, "pq", "pq", "", "&pq", "&qp"),
    (2, "pqr", "pqr", "", "&p&qr", "&&pqr"),
    (3, "p", "p", "", "&pp", "p"),
    (4, "p", "p", "", "&pT", "p"),
    (5, "p", "p", "", "&pF", "F"),
    (6, "pq", "pq", "", "/pq", "!&!p!q"),
    (7, "p", "p", "", "!!p", "p"),
    (8, "pq", "pq", "", ">pq", "/!pq"),
    (9, "p", "p", "", ">Tp", "p"),
    (10, "xy", "xy", "", "?Txy", "x"),
    (11, "xy", "xy", "", "?Fxy", "y"),
    (12, "x", "x", "", "=xx", "T"),
    (13, "xy", "xy", "", "=xy", "=yx"),
    (14, "ab", "ab", "", "+ab", "+ba"),
    (15, "abc", "abc", "", "+a+bc", "++abc"),
    (16, "a", "a", "", "+a0", "a"),
    (17, "ab", "ab", "", "-ab", "+aNb"),
    (18, "a", "a", "", "+aNa", "0"),
    (19, "ab", "ab", "", "*ab", "*ba"),
    (20, "mxyd", "mxyd", "", "GQmxyxd", "y"),
    (21, "a", "a", "", "*a1", "a"),
    (22, "abc", "abc", "", "*a+bc", "+*ab*ac"),
    (23, "ab", "ab", "", "Lab", "!<ba"),
    (24, "acb", "acb", "", "<+ac+bc", "<ab"),
    (25, "ab", "ab", "", "=ab", "&<ab<ba"),
    (26, "ab", "ab", "", "Xab", "?<abba"),
    (27, "ab", "ab", "", "Yab", "?<abab"),
    (28, "st", "st", "", "|st", "|ts"),
    (29, "stu", "stu", "", "|s|tu", "||stu"),
    (30, "s", "s", "", "|sE", "s"),
    (31, "st", "st", "", "Ist", "Its"),
    (32, "xs", "xs", "", "^xs", "|{xs"),
    (33, "xs", "xs", "", "Wxs", "Ds{x"),
    (34, "xst", "xst", "", "~x|st", "/~xs~xt"),
    (35, "xst", "xst", "", "~xIst", "&~xs~xt"),
    (36, "xst", "xst", "", "~xDst", "&~xs!~xt"),
    (37, "xy", "xy", "", "~x{y", "=xy"),
    (38, "abc", "abc", "", "~aRbc", "&<ba<ac"),
    (39, "st", "st", "", "%st", "=DstE"),
    (40, "as", "as", "!~as", "U^as", "+Usa"),
    (41, "xs", "xs", "!~xs", "C^xs", "+Cs1"),
    (42, "vx", "vx", "", "#;vx", "+#v1"),
    (43, "vx", "vx", "", ":;vx", "^x:v"),
    (44, "va", "va", "", "$;va", "+$va"),
    (45, "vwax", "vwax", "Pvw~aR1#v", "@wax", "@vax"),
    (46, "vxy", "vxy", "", "@;vx+#v1y", "x"),
    (47, "mxy", "mxy", "", "KQmxy", "^xKm"),
    (48, "mnxy", "mnxy", "Bmn~xKm", "Gnxy", "Gmxy"),
];

#[test]
fn equations_are_written(rt: HostRuntime) {
    writes(&rt, rt.alloc(), LawKind::Equation, &EQUATIONS);
}

const IMPLICATIONS: [Row; 20] = [
    (1, "x", "x", "", "=xx", "T"),
    (2, "abc", "abc", "<ab<bc", "<ac", "T"),
    (3, "abcd", "abcd", "<ab<cd", "<+ac+bd", "T"),
    (4, "xmy", "xmy", "!~xKm", "BmQmxy", "T"),
    (5, "abc", "abc", "<ab<0c", "<*ac*bc", "T"),
    (6, "stu", "stu", "%st%tu", "%su", "T"),
    (7, "stx", "stx", "%st~xs", "~xt", "T"),
    (8, "st", "st", "", "%s|st", "T"),
    (9, "sx", "sx", "!=sE", "~Jsxs", "T"),
    (10, "st", "st", "%st", "<CsCt", "T"),
    (11, "st", "st", "%st<0Jt0", "<UsUt", "T"),
    (12, "stx", "stx", "=IstE~xt", "!~xs", "T"),
    (13, "abcd", "abcd", "<ab<cd", "%RbcRad", "T"),
    (14, "as", "as", "~as", "<Jsaa", "T"),
    (15, "vw", "vw", "Pvw", "<#v#w", "T"),
    (16, "vw", "vw", "Pvw", "%:v:w", "T"),
    (17, "vx", "vx", "", "Pv;vx", "T"),
    (18, "vw", "vw", "Pvw<0J:w0", "<$v$w", "T"),
    (19, "mn", "mn", "Bmn", "%KmKn", "T"),
    (20, "mnxy", "mnxy", "Zmn~xKn", "~GmxyGnxE", "T"),
];

#[test]
fn implications_are_written(rt: HostRuntime) {
    writes(&rt, rt.alloc(), LawKind::Implication, &IMPLICATIONS);
}

fn is_no_law(found: &Result<Pattern, LawFault>) -> bool {
    match found {
        Ok(_) => false,
        Err(fault) => *fault == LawFault::NoLaw,
    }
}

const NO_LAWS: [(LawKind, u8); 6] = [
    (LawKind::Equation, 0),
    (LawKind::Equation, 49),
    (LawKind::Equation, 255),
    (LawKind::Implication, 0),
    (LawKind::Implication, 21),
    (LawKind::Implication, 255),
];

#[test]
fn other_numbers_are_no_laws(rt: HostRuntime) {
    for row in &NO_LAWS {
        let found = pattern(rt.alloc(), row.0, row.1);
        assert!(rt; is_no_law(&found), "law {}", row.1);
    }
}
