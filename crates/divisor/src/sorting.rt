// Sorting the points by the sizes of their images: 0 for a bad point, else one more than the image's degree.
ghost use Rattle.std.specs.Prelude.{◌≡◌, ◌≤◌, length};
ghost use Rattle.divisor.specs.Candidate.{most_points};
ghost use Rattle.divisor.specs.Sorting.Model.{lesser as lesser_of, least, alike as alike_of, HasPlaces};

use field::MOST_POINTS;
use poly::Size;

// A size for each point that can be lent.
pub(crate) type Sizes = [Size; MOST_POINTS];

// A point's place among those lent.
pub(crate) type Place = u16;

// A place for each point that can be kept.
pub(crate) type Places = [Place; MOST_POINTS];

// The less of two sizes, of which 0 is none.
fn lesser(a: Size, b: Size) -> Size
    ensures { result ≡ lesser_of a b }
{
    match (a, b) {
        (_, 0) => a,
        (0, _) => b,
        _ => a.min(b),
    }
}

// The least size but 0, or 0.
pub(crate) fn least_size(sizes: &[Size]) -> Size
    ensures { result ≡ least sizes.now }
{
    let mut least: Size = 0;
    for size in sizes {
        least = lesser(least, *size);
    }
    least
}

// How many sizes are m. No chain of iterators: its `next` hands back an option of a reference, which a core with 32-bit pointers reads at another
// place than the module writes it (bench/handheld).
pub(crate) fn alike(sizes: &[Size], m: Size) -> usize
    ensures { result ≡ alike_of m sizes.now }
{
    let mut count: usize = 0;
    for size in sizes {
        if *size == m {
            count += 1;
        }
    }
    count
}

// The places of the sizes that are m, in the order lent.
pub(crate) fn places_of(sizes: &[Size], m: Size) -> Places
    requires { length sizes.now ≤ most_points }
    ensures { HasPlaces m sizes.now (length sizes.now) result }
{
    let mut places: Places = [0; MOST_POINTS];
    let mut count: usize = 0;
    for (i, size) in sizes.iter().enumerate() {
        if *size == m {
            places[count] = i as Place;
            count += 1;
        }
    }
    places
}
