//! Regions as numbers.
ghost use Rattle.std.specs.Prelude.{◌≡◌, ◌+◌, ◌<◌, true};
ghost use Rattle.bc_syntax.specs.Fits.{region_fits};
ghost use Rattle.bc_points.specs.Regions.{region_number as number_of, region_of_number as region_of};

use bc_syntax::Region;

/// Returns the number of a region in a unit with this number of universal regions: `u` for universal region `u`, and `universals + v` for
/// variable `v`.
pub fn region_number(universals: u8, region: Region) -> usize
    ensures value { result ≡ number_of universals region }
    ensures below { region_fits true universals region ≡ true → result < universals + 1024 }
    ensures small { result < universals + 65536 }
{
    match region {
        Region::Universal(number) => usize::from(number),
        Region::Variable(number) => usize::from(universals) + usize::from(number),
    }
}

/// Returns the region of a number in a unit with this number of universal regions: a universal region if the number is below `universals`,
/// otherwise a variable. `number` must be below `universals + 65536`.
pub fn region_of_number(universals: u8, number: usize) -> Region
    requires { number < universals + 65536 }
    ensures { result ≡ region_of universals number }
{
    if number < usize::from(universals) {
        Region::Universal(number as u8)
    } else {
        Region::Variable((number - usize::from(universals)) as u16)
    }
}
