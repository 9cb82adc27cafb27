//! Maps of points, one for each letter.
ghost use Rattle.std.specs.Prelude.{◌≡◌, ◌<◌, ◌≤◌, ◌+◌, IfOk, OnOk};
ghost use Rattle.froidure_pin.specs.Maps.{image, AreMaps, AreOwn, IsIdentity, IsSetAt};
ghost use Rattle.syn_words.specs.Alphabet.{most_letters};

use std::alloc::Global;
use std::marker::Model;
use syn_words::Memory;

/// The most points.
pub const MOST_POINTS: u32 = 4_096;

/// The limit as a number.
pub fn the_limits()
    ensures points { MOST_POINTS ≡ 4096 }
{}

/// A map of the points for each letter. Its value is the record `Maps`: the numbers of points and letters, and the
/// images of all points by letter 0, then those by letter 1, and so on.
#[derive(Debug, Drop)]
pub struct Generators {
    points: u32,
    letters: u32,
    images: Vec<u32>,
}

impl Model for Generators {
    ghost use Rattle.froidure_pin.specs.Maps.{Maps, AreMaps};

    ghost Value = { Maps };

    ghost view = { λ g. record {
      points = g.points;
      letters = g.letters;
      images =
          g.images.items;
    } };

    ghost invariant = { λ g. AreMaps
        (record { points = g.points; letters = g.letters; images = g.images.items }) };
}

impl Generators {
    /// Every letter maps every point to itself. Condition: 1 to `MOST_POINTS` points and 1 to 60 letters.
    pub fn new(alloc: Global, points: u32, letters: u32) -> Result<Generators, Memory>
        requires some { 1 ≤ points }
        requires points { points ≤ MOST_POINTS }
        requires letter { 1 ≤ letters }
        requires letters { letters ≤ most_letters }
        ensures { IfOk result (λ g. IsIdentity points letters g) }
    {
        let mut images = Vec::with_capacity(alloc, points as usize * letters as usize)?;
        for letter in 0..letters {
            push_points(points, letter, &mut images)?;
        }
        Ok(Generators {
            points,
            letters,
            images,
        })
    }

    /// The letter takes the point to the image. Condition: all three are in range.
    pub fn set(&mut self, letter: u8, point: u32, image: u32)
        requires letter { letter < self.old.letters }
        requires point { point < self.old.points }
        requires image { image < self.old.points }
        ensures { IsSetAt self.old self.new letter point image }
    {
        self.images[letter as usize * self.points as usize + point as usize] = image;
    }

    /// The number of points, from 1 to `MOST_POINTS`.
    pub fn points(&self) -> u32
        ensures points { result ≡ self.now.points }
        ensures maps { AreMaps self.now }
    {
        self.points
    }

    /// The number of letters, from 1 to 60.
    pub fn letters(&self) -> u32
        ensures letters { result ≡ self.now.letters }
        ensures few { result ≤ most_letters }
    {
        self.letters
    }

    /// Where a letter takes a point. Condition: both are in range.
    pub fn image(&self, letter: u8, point: u32) -> u32
        requires letter { letter < self.now.letters }
        requires point { point < self.now.points }
        ensures image { result ≡ image self.now point letter }
        ensures within { result < self.now.points }
    {
        self.images[letter as usize * self.points as usize + point as usize]
    }
}

/// Puts the images of the points by the next letter behind those by the letters before it: each point itself.
fn push_points(points: u32, letter: u32, images: &mut Vec<u32>) -> Result<(), Memory>
    requires { AreOwn points letter images.old.items }
    ensures { OnOk result (AreOwn points (letter + 1) images.new.items) }
{
    for point in 0..points {
        images.push(point)?;
    }
    Ok(())
}

/// The maps are read by several workers: this call is proved only where that is allowed.
fn is_shared<T: Send + Sync>(_value: &T) {}

fn maps_are_shared(generators: &Generators) {
    is_shared(generators)
}
