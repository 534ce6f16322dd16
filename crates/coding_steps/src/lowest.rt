// The lowest coefficient that serves all.
ghost use Rattle.std.specs.Prelude.{◌≡◌, ◌<◌};
ghost use Rattle.linear.specs.Lowest.{lowest};
ghost use Rattle.coding_steps.specs.Products.{all_served};

use crate::product::Product;
use gf_bytes::mul;

// With t times the other vector added, no row makes 0 of the vector.
fn all_served(products: &[Product], t: u8) -> bool
    ensures { result ≡ all_served products.now t }
{
    products
        .iter()
        .all(|product| product.before ^ mul(t, product.added) != 0)
}

// The lowest t from 1 to 255 that serves all, where there is one: the loop is left at the first, by its label.
pub fn lowest_serving(products: &[Product]) -> u8
    requires { lowest (all_served products.now) 255 1 < 256 }
    ensures { result ≡ lowest (all_served products.now) 255 1 }
{
    let mut lowest = 0;
    'search: for t in 1..=255u8 {
        if all_served(products, t) {
            lowest = t;
            break 'search;
        }
    }
    lowest
}
