use crate::Kind;

// The kind of each byte, in the order of the bytes. A static, since a constant is built on the stack wherever it is read.
pub static KINDS: [Kind; 256] = [
    Kind::Other, // 0x00
    Kind::Other, // 0x01
    Kind::Other, // 0x02
    Kind::Other, // 0x03
    Kind::Other, // 0x04
    Kind::Other, // 0x05
    Kind::Other, // 0x06
    Kind::Other, // 0x07
    Kind::Other, // 0x08
    Kind::Blank, // 0x09
    Kind::Newline, // 0x0a
    Kind::Other, // 0x0b
    Kind::Blank, // 0x0c
    Kind::Blank, // 0x0d
    Kind::Other, // 0x0e
    Kind::Other, // 0x0f
    Kind::Other, // 0x10
    Kind::Other, // 0x11
    Kind::Other, // 0x12
    Kind::Other, // 0x13
    Kind::Other, // 0x14
    Kind::Other, // 0x15
    Kind::Other, // 0x16
    Kind::Other, // 0x17
    Kind::Other, // 0x18
    Kind::Other, // 0x19
    Kind::Other, // 0x1a
    Kind::Other, // 0x1b
    Kind::Other, // 0x1c
    Kind::Other, // 0x1d
    Kind::Other, // 0x1e
    Kind::Other, // 0x1f
    Kind::Blank, // 0x20
    Kind::Other, // 0x21 !
    Kind::Quote, // 0x22 "
    Kind::Hash, // 0x23 #
    Kind::Other, // 0x24 $
    Kind::Other, // 0x25 %
    Kind::Other, // 0x26 &
    Kind::Quote, // 0x27 '
    Kind::Parenthesis, // 0x28 (
    Kind::Other, // 0x29 )
    Kind::Star, // 0x2a *
    Kind::Sign, // 0x2b +
    Kind::Comma, // 0x2c ,
    Kind::Sign, // 0x2d -
    Kind::Point, // 0x2e .
    Kind::Other, // 0x2f /
    Kind::Digit, // 0x30 0
    Kind::Digit, // 0x31 1
    Kind::Digit, // 0x32 2
    Kind::Digit, // 0x33 3
    Kind::Digit, // 0x34 4
    Kind::Digit, // 0x35 5
    Kind::Digit, // 0x36 6
    Kind::Digit, // 0x37 7
    Kind::Digit, // 0x38 8
    Kind::Digit, // 0x39 9
    Kind::Colon, // 0x3a :
    Kind::Semicolon, // 0x3b ;
    Kind::Other, // 0x3c <
    Kind::Other, // 0x3d =
    Kind::Other, // 0x3e >
    Kind::Question, // 0x3f ?
    Kind::Other, // 0x40 @
    Kind::Capital, // 0x41 A
    Kind::Capital, // 0x42 B
    Kind::Capital, // 0x43 C
    Kind::Capital, // 0x44 D
    Kind::Capital, // 0x45 E
    Kind::Capital, // 0x46 F
    Kind::Capital, // 0x47 G
    Kind::Capital, // 0x48 H
    Kind::Capital, // 0x49 I
    Kind::Capital, // 0x4a J
    Kind::Capital, // 0x4b K
    Kind::Capital, // 0x4c L
    Kind::Capital, // 0x4d M
    Kind::Capital, // 0x4e N
    Kind::Capital, // 0x4f O
    Kind::Capital, // 0x50 P
    Kind::Capital, // 0x51 Q
    Kind::Capital, // 0x52 R
    Kind::Capital, // 0x53 S
    Kind::Capital, // 0x54 T
    Kind::Capital, // 0x55 U
    Kind::Capital, // 0x56 V
    Kind::Capital, // 0x57 W
    Kind::Capital, // 0x58 X
    Kind::Capital, // 0x59 Y
    Kind::Capital, // 0x5a Z
    Kind::Other, // 0x5b [
    Kind::Other, // 0x5c \
    Kind::Other, // 0x5d ]
    Kind::Other, // 0x5e ^
    Kind::Underscore, // 0x5f _
    Kind::Other, // 0x60 `
    Kind::Small, // 0x61 a
    Kind::Small, // 0x62 b
    Kind::Small, // 0x63 c
    Kind::Small, // 0x64 d
    Kind::Small, // 0x65 e
    Kind::Small, // 0x66 f
    Kind::Small, // 0x67 g
    Kind::Small, // 0x68 h
    Kind::Small, // 0x69 i
    Kind::Small, // 0x6a j
    Kind::Small, // 0x6b k
    Kind::Small, // 0x6c l
    Kind::Small, // 0x6d m
    Kind::Small, // 0x6e n
    Kind::Small, // 0x6f o
    Kind::Small, // 0x70 p
    Kind::Small, // 0x71 q
    Kind::Small, // 0x72 r
    Kind::Small, // 0x73 s
    Kind::Small, // 0x74 t
    Kind::Small, // 0x75 u
    Kind::Small, // 0x76 v
    Kind::Small, // 0x77 w
    Kind::Small, // 0x78 x
    Kind::Small, // 0x79 y
    Kind::Small, // 0x7a z
    Kind::Other, // 0x7b {
    Kind::Other, // 0x7c |
    Kind::Other, // 0x7d }
    Kind::Other, // 0x7e ~
    Kind::Other, // 0x7f
    Kind::Beyond, // 0x80
    Kind::Beyond, // 0x81
    Kind::Beyond, // 0x82
    Kind::Beyond, // 0x83
    Kind::Beyond, // 0x84
    Kind::Beyond, // 0x85
    Kind::Beyond, // 0x86
    Kind::Beyond, // 0x87
    Kind::Beyond, // 0x88
    Kind::Beyond, // 0x89
    Kind::Beyond, // 0x8a
    Kind::Beyond, // 0x8b
    Kind::Beyond, // 0x8c
    Kind::Beyond, // 0x8d
    Kind::Beyond, // 0x8e
    Kind::Beyond, // 0x8f
    Kind::Beyond, // 0x90
    Kind::Beyond, // 0x91
    Kind::Beyond, // 0x92
    Kind::Beyond, // 0x93
    Kind::Beyond, // 0x94
    Kind::Beyond, // 0x95
    Kind::Beyond, // 0x96
    Kind::Beyond, // 0x97
    Kind::Beyond, // 0x98
    Kind::Beyond, // 0x99
    Kind::Beyond, // 0x9a
    Kind::Beyond, // 0x9b
    Kind::Beyond, // 0x9c
    Kind::Beyond, // 0x9d
    Kind::Beyond, // 0x9e
    Kind::Beyond, // 0x9f
    Kind::Beyond, // 0xa0
    Kind::Beyond, // 0xa1
    Kind::Beyond, // 0xa2
    Kind::Beyond, // 0xa3
    Kind::Beyond, // 0xa4
    Kind::Beyond, // 0xa5
    Kind::Beyond, // 0xa6
    Kind::Beyond, // 0xa7
    Kind::Beyond, // 0xa8
    Kind::Beyond, // 0xa9
    Kind::Beyond, // 0xaa
    Kind::Beyond, // 0xab
    Kind::Beyond, // 0xac
    Kind::Beyond, // 0xad
    Kind::Beyond, // 0xae
    Kind::Beyond, // 0xaf
    Kind::Beyond, // 0xb0
    Kind::Beyond, // 0xb1
    Kind::Beyond, // 0xb2
    Kind::Beyond, // 0xb3
    Kind::Beyond, // 0xb4
    Kind::Beyond, // 0xb5
    Kind::Beyond, // 0xb6
    Kind::Beyond, // 0xb7
    Kind::Beyond, // 0xb8
    Kind::Beyond, // 0xb9
    Kind::Beyond, // 0xba
    Kind::Beyond, // 0xbb
    Kind::Beyond, // 0xbc
    Kind::Beyond, // 0xbd
    Kind::Beyond, // 0xbe
    Kind::Beyond, // 0xbf
    Kind::Beyond, // 0xc0
    Kind::Beyond, // 0xc1
    Kind::Beyond, // 0xc2
    Kind::Beyond, // 0xc3
    Kind::Beyond, // 0xc4
    Kind::Beyond, // 0xc5
    Kind::Beyond, // 0xc6
    Kind::Beyond, // 0xc7
    Kind::Beyond, // 0xc8
    Kind::Beyond, // 0xc9
    Kind::Beyond, // 0xca
    Kind::Beyond, // 0xcb
    Kind::Beyond, // 0xcc
    Kind::Beyond, // 0xcd
    Kind::Beyond, // 0xce
    Kind::Beyond, // 0xcf
    Kind::Beyond, // 0xd0
    Kind::Beyond, // 0xd1
    Kind::Beyond, // 0xd2
    Kind::Beyond, // 0xd3
    Kind::Beyond, // 0xd4
    Kind::Beyond, // 0xd5
    Kind::Beyond, // 0xd6
    Kind::Beyond, // 0xd7
    Kind::Beyond, // 0xd8
    Kind::Beyond, // 0xd9
    Kind::Beyond, // 0xda
    Kind::Beyond, // 0xdb
    Kind::Beyond, // 0xdc
    Kind::Beyond, // 0xdd
    Kind::Beyond, // 0xde
    Kind::Beyond, // 0xdf
    Kind::Beyond, // 0xe0
    Kind::Beyond, // 0xe1
    Kind::Beyond, // 0xe2
    Kind::Beyond, // 0xe3
    Kind::Beyond, // 0xe4
    Kind::Beyond, // 0xe5
    Kind::Beyond, // 0xe6
    Kind::Beyond, // 0xe7
    Kind::Beyond, // 0xe8
    Kind::Beyond, // 0xe9
    Kind::Beyond, // 0xea
    Kind::Beyond, // 0xeb
    Kind::Beyond, // 0xec
    Kind::Beyond, // 0xed
    Kind::Beyond, // 0xee
    Kind::Beyond, // 0xef
    Kind::Beyond, // 0xf0
    Kind::Beyond, // 0xf1
    Kind::Beyond, // 0xf2
    Kind::Beyond, // 0xf3
    Kind::Beyond, // 0xf4
    Kind::Beyond, // 0xf5
    Kind::Beyond, // 0xf6
    Kind::Beyond, // 0xf7
    Kind::Beyond, // 0xf8
    Kind::Beyond, // 0xf9
    Kind::Beyond, // 0xfa
    Kind::Beyond, // 0xfb
    Kind::Beyond, // 0xfc
    Kind::Beyond, // 0xfd
    Kind::Beyond, // 0xfe
    Kind::Beyond, // 0xff
];
