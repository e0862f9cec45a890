// A vehicle's place by value: latitude, longitude and when it was told. Floats are handed on bit for bit.
#![tactic(auto)]

ghost use Rattle.std.specs.Prelude.{◌≡◌};
ghost use Rattle.formats_write.specs.Promises.Adds.{Adds};
ghost use Rattle.vehicle_place.specs.Promises.Coordinates.{coordinate_of, bits_of};
ghost use Rattle.vehicle_place.specs.Promises.Place.{ReadsPlace, place_w};

use std::num::{f64_from_bits_with_nan, f64_to_bits_with_nan};

// A float, or the pattern of a NaN, whose bits no float here has: together they carry all 2^64 patterns.
#[derive(Clone, Copy)]
pub enum Coordinate {
    Number(f64),
    NaN(u64),
}

#[derive(Clone, Copy)]
pub struct VehiclePlace {
    pub latitude: Coordinate,
    pub longitude: Coordinate,
    pub updated: i64,
}

impl Coordinate {
    // The coordinate of 64 bits.
    #[tactic(auto, using(crate::proofs::Laws::is_pattern))]
    pub fn from_bits(n: u64) -> Self
        ensures { result ≡ coordinate_of n }
    {
        let x = f64_from_bits_with_nan(n);
        if x.is_nan() {
            Coordinate::NaN(n)
        } else {
            Coordinate::Number(x)
        }
    }

    // The 64 bits of a coordinate.
    pub fn to_bits(self) -> u64
        ensures { result ≡ bits_of self }
    {
        match self {
            Coordinate::Number(x) => f64_to_bits_with_nan(x),
            Coordinate::NaN(n) => n,
        }
    }
}

// The place whose coordinates and time stand at three places of s.
pub fn read(s: &[u8], latitude: usize, longitude: usize, updated: usize) -> VehiclePlace
    ensures { ReadsPlace s.now latitude longitude updated result }
{
    VehiclePlace {
        latitude: Coordinate::from_bits(formats_read::float(s, latitude)),
        longitude: Coordinate::from_bits(formats_read::float(s, longitude)),
        updated: formats_read::signed(s, updated),
    }
}

// A place as three optional values that are there.
pub fn write(out: &mut [u8], w: Option<usize>, v: VehiclePlace) -> Option<usize>
    ensures { Adds out.old w out.new result (place_w v) }
{
    let latitude = v.latitude.to_bits();
    let longitude = v.longitude.to_bits();
    let w1 = formats_write::optional_float(out, w, Some(latitude));
    let w2 = formats_write::optional_float(out, w1, Some(longitude));
    formats_write::optional_signed(out, w2, Some(v.updated))
}
