//! Values of each kind from plain numbers.
ghost use Rattle.std.specs.Prelude.{◌≡◌};
ghost use Rattle.joining.specs.Kinds.{length_of, bits_of, extremes_of, reading_of};

use crate::kinds::{Bits, CoilRecord, Deviation, Extremes, Length, Marks};
use std::marker::PhantomData;

impl Length {
    /// The length that was run.
    pub fn new(run: u64) -> Length
        ensures value { result ≡ length_of run }
        ensures run { result.run ≡ run }
    {
        Length { run }
    }
}

impl<R> Bits<R> {
    /// The set that has these bits.
    pub fn new(bits: u16) -> Bits<R>
        ensures { result ≡ bits_of bits }
    {
        Bits {
            bits,
            rule: PhantomData,
        }
    }
}

impl Extremes {
    /// The extremes of deviations of which these are the smallest and the largest.
    pub fn new(thinnest: Deviation, thickest: Deviation) -> Extremes
        ensures value { result ≡ extremes_of thinnest thickest }
        ensures thinnest { result.thinnest ≡ thinnest }
        ensures thickest { result.thickest ≡ thickest }
    {
        Extremes { thinnest, thickest }
    }

    /// The extremes of one deviation.
    pub fn of(deviation: Deviation) -> Extremes
        ensures value { result ≡ extremes_of deviation deviation }
        ensures thinnest { result.thinnest ≡ deviation }
        ensures thickest { result.thickest ≡ deviation }
    {
        Extremes::new(deviation, deviation)
    }
}

impl CoilRecord {
    /// The record of one reading.
    pub fn of_reading(length: u32, deviation: Deviation, marks: u16) -> CoilRecord
        ensures value { result ≡ reading_of length deviation marks }
        ensures length { result.length.run ≡ length }
        ensures thinnest { result.extremes.thinnest ≡ deviation }
        ensures thickest { result.extremes.thickest ≡ deviation }
        ensures marks { result.marks.bits ≡ marks }
    {
        CoilRecord {
            length: Length::new(u64::from(length)),
            extremes: Extremes::of(deviation),
            marks: Marks::new(marks),
        }
    }
}
