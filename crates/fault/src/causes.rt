ghost use Rattle.std.specs.Prelude.{◌≡◌, Some};
ghost use Rattle.fault.specs.Numbers.{number};
ghost use Rattle.fault.specs.Layers.{refuser};
ghost use Rattle.fault.specs.Shown.{layer_word};

use std::fmt;

// Every cause for which the box refuses, with the number that it prints.
#[derive(Clone, Copy, PartialEq, Eq, Debug)]
pub enum Cause {
    FileShort = 1,
    WrongMark = 2,
    WrongVersion = 3,
    BeyondLimits = 4,
    WrongLength = 5,
    WrongRecord = 6,
    DirectIn = 7,
    DirectWay = 8,
    BackOut = 9,
    BackWay = 10,
    WrongCounter = 11,
    NoWayFromHead = 12,
    NoWayToHead = 13,
    BufferShort = 14,
    Unfit = 20,
    NoLine = 21,
    NothingWaits = 22,
    LineFull = 23,
    LineEmpty = 24,
    NoHouse = 25,
    WrongReading = 26,
    RoundOpen = 27,
    NoRound = 28,
    NoAnswer = 29,
    ManyReadings = 30,
    NoForm = 40,
}

// The part of the box that refuses.
#[derive(Clone, Copy, PartialEq, Eq, Debug)]
pub enum Layer {
    File,
    Marking,
    Carrier,
    Row,
    Bench,
}

impl Cause {
    // The number that the box prints for the cause.
    pub fn number(self) -> u8
        ensures { result ≡ number self }
    {
        self as u8
    }

    // The layer that refuses for the cause, unless another layer is asked by itself.
    pub fn layer(self) -> Layer
        ensures { result ≡ refuser self }
    {
        match self {
            Cause::FileShort
            | Cause::WrongMark
            | Cause::WrongVersion
            | Cause::BeyondLimits
            | Cause::WrongLength
            | Cause::WrongRecord
            | Cause::BufferShort => Layer::File,
            Cause::DirectIn
            | Cause::DirectWay
            | Cause::BackOut
            | Cause::BackWay
            | Cause::WrongCounter
            | Cause::NoWayFromHead
            | Cause::NoWayToHead => Layer::Marking,
            Cause::LineFull | Cause::LineEmpty => Layer::Carrier,
            Cause::NoForm => Layer::Bench,
            Cause::Unfit
            | Cause::NoLine
            | Cause::NothingWaits
            | Cause::NoHouse
            | Cause::WrongReading
            | Cause::RoundOpen
            | Cause::NoRound
            | Cause::NoAnswer
            | Cause::ManyReadings => Layer::Row,
        }
    }
}

impl fmt::Display for Layer {
    ghost output = { λ layer. Some (layer_word layer) };

    fn fmt<W: fmt::Write>(&self, f: &mut fmt::Formatter<W>) -> fmt::Result {
        f.write_str(match self {
            Layer::File => "file",
            Layer::Marking => "marking",
            Layer::Carrier => "carrier",
            Layer::Row => "row",
            Layer::Bench => "bench",
        })
    }
}
