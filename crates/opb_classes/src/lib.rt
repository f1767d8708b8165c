// The classes of bytes, by a table.
#![tactic(auto)]

ghost use Rattle.std.specs.Prelude.{◌≡◌};
ghost use Rattle.opb_classes.specs.Bytes.{class_of};

use Class::{Blank, Digit, Equal, Ex, Greater, Minus, Other, Plus, Semicolon, Star};

#[derive(Clone, Copy, Debug, PartialEq, Eq)]
pub enum Class {
    Blank,
    Digit,
    Plus,
    Minus,
    Star,
    Ex,
    Greater,
    Equal,
    Semicolon,
    Other,
}

const CLASSES: &[Class; 256] = &[
    Other, Other, Other, Other, Other, Other, Other, Other, // from 0
    Other, Blank, Blank, Other, Other, Blank, Other, Other, // from 8
    Other, Other, Other, Other, Other, Other, Other, Other, // from 16
    Other, Other, Other, Other, Other, Other, Other, Other, // from 24
    Blank, Other, Other, Other, Other, Other, Other, Other, // from 32
    Other, Other, Star, Plus, Other, Minus, Other, Other, // from 40
    Digit, Digit, Digit, Digit, Digit, Digit, Digit, Digit, // from 48
    Digit, Digit, Other, Semicolon, Other, Equal, Greater, Other, // from 56
    Other, Other, Other, Other, Other, Other, Other, Other, // from 64
    Other, Other, Other, Other, Other, Other, Other, Other, // from 72
    Other, Other, Other, Other, Other, Other, Other, Other, // from 80
    Other, Other, Other, Other, Other, Other, Other, Other, // from 88
    Other, Other, Other, Other, Other, Other, Other, Other, // from 96
    Other, Other, Other, Other, Other, Other, Other, Other, // from 104
    Other, Other, Other, Other, Other, Other, Other, Other, // from 112
    Ex, Other, Other, Other, Other, Other, Other, Other, // from 120
    Other, Other, Other, Other, Other, Other, Other, Other, // from 128
    Other, Other, Other, Other, Other, Other, Other, Other, // from 136
    Other, Other, Other, Other, Other, Other, Other, Other, // from 144
    Other, Other, Other, Other, Other, Other, Other, Other, // from 152
    Other, Other, Other, Other, Other, Other, Other, Other, // from 160
    Other, Other, Other, Other, Other, Other, Other, Other, // from 168
    Other, Other, Other, Other, Other, Other, Other, Other, // from 176
    Other, Other, Other, Other, Other, Other, Other, Other, // from 184
    Other, Other, Other, Other, Other, Other, Other, Other, // from 192
    Other, Other, Other, Other, Other, Other, Other, Other, // from 200
    Other, Other, Other, Other, Other, Other, Other, Other, // from 208
    Other, Other, Other, Other, Other, Other, Other, Other, // from 216
    Other, Other, Other, Other, Other, Other, Other, Other, // from 224
    Other, Other, Other, Other, Other, Other, Other, Other, // from 232
    Other, Other, Other, Other, Other, Other, Other, Other, // from 240
    Other, Other, Other, Other, Other, Other, Other, Other, // from 248
];

impl Class {
    // The class of a byte, as the table has it.
    pub fn of(b: u8) -> Class
        ensures { result ≡ class_of b }
    {
        CLASSES[b as usize]
    }
}
