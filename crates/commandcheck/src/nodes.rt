// The table of the program: the worked tree of `tree`, which is proved to be accepted.
ghost use Rattle.std.specs.Prelude.{◌≡◌};
ghost use Rattle.routes.specs.Worked as worked;

// A node word has these two bits; from bit 58 on the length of its name, and from bit 42 the start; from bit 26 the first child of a
// branch or the command of a leaf; from bit 10 the child count.
const BRANCH: u64 = 1 << 63;

const DEFAULT: u64 = 1 << 62;

const NODES: [u64; 11] = [
    // 0, the root
    BRANCH + (1 << 26) + (4 << 10),
    // 1, *IDN
    (4 << 58) + (1 << 26),
    // 2, ROUTe
    BRANCH + (5 << 58) + (4 << 42) + (5 << 26) + (2 << 10),
    // 3, SENSe
    BRANCH + DEFAULT + (5 << 58) + (9 << 42) + (7 << 26) + (2 << 10),
    // 4, ABORt
    (5 << 58) + (14 << 42) + (2 << 26),
    // 5, CLOSe
    (5 << 58) + (19 << 42) + (3 << 26),
    // 6, OPEN
    (4 << 58) + (24 << 42) + (4 << 26),
    // 7, VOLTage
    BRANCH + (7 << 58) + (28 << 42) + (9 << 26) + (2 << 10),
    // 8, CURRent
    (7 << 58) + (35 << 42) + (5 << 26),
    // 9, DC
    DEFAULT + (2 << 58) + (42 << 42) + (6 << 26),
    // 10, AC2
    (3 << 58) + (44 << 42) + (7 << 26),
];

pub(crate) fn nodes() -> [u64; 11]
    ensures { result ≡ worked.nodes }
{
    NODES
}

pub(crate) fn names() -> [u8; 47]
    ensures { result ≡ worked.names }
{
    *b"*IDNROUTeSENSeABORtCLOSeOPENVOLTageCURRentDCAC2"
}
