// The choice of the coefficients of a link, when some of the receivers have had their turn.
ghost use Rattle.std.specs.Prelude.{◌≡◌, ◌<◌, ◌≤◌, ◌∷◌, ◌++◌, [], map, length, replicate, IfOk, OnErr, OnOk};
ghost use Rattle.gf.proofs.Fields.{byte_field};
ghost use Rattle.linear.specs.Vectors.{plus, scale, dot};
ghost use Rattle.linear.specs.Lowest.{lowest};
ghost use Rattle.coding_theory.specs.Coding.{trial};
ghost use Rattle.coding_steps.specs.Carriers.{carrier};
ghost use Rattle.coding_steps.specs.Rows.{bytes_of, AllCounted};
ghost use Rattle.coding_steps.specs.Products.{product_of, all_served, Extended};

use crate::carrier::Carrier;
use crate::lowest::lowest_serving;
use crate::product::Product;
use gf_bytes::Vector;
use std::alloc::{AllocError, Global};

#[derive(Drop)]
pub struct Choice {
    // the packets at hand
    pub hands: Vec<Carrier>,
    // one for each of them; apart from them, since they alone go into the plan
    pub coefficients: Vec<u8>,
    // the mix of what is at hand by the coefficients
    pub vector: Vector,
    // of each receiver that had its turn the row by which the vector is tested
    pub rows: Vec<Vector>,
    ghost level: { length coefficients.items ≡ length hands.items },
    ghost counted: { AllCounted vector.count rows.items },
}

impl Choice {
    // Before the first receiver all coefficients are 0.
    pub fn new(heap: Global, h: usize, hands: Vec<Carrier>) -> Result<Choice, AllocError>
        requires { h ≤ 32 }
        ensures hands { IfOk result (λ c. c.hands ≡ hands) }
        ensures coefficients { IfOk result (λ c. c.coefficients.items ≡ replicate (length hands.items) 0) }
        ensures vector { IfOk result (λ c. (c.vector.count ≡ h) × (c.vector.bytes ≡ replicate 32 0)) }
        ensures rows { IfOk result (λ c. c.rows.items ≡ []) }
    {
        let coefficients = vec![in heap; 0; hands.len()]?;
        Ok(Choice {
            hands,
            coefficients,
            vector: Vector::zero(h).unwrap(),
            rows: Vec::new(heap),
        })
    }

    // Serves one more receiver, and still those before it. Nothing changes if the vector serves it already; else t times
    // the vector `added` of a packet at hand is added, with the lowest t that serves all. Where memory is wanting, all stays as it was.
    pub fn serve(
        &mut self,
        heap: Global,
        row: Vector,
        packet: Carrier,
        added: Vector,
    ) -> Result<(), AllocError>
        requires counted { (row.count ≡ self.old.vector.count) × (added.count ≡ self.old.vector.count) }
        requires found { dot byte_field self.old.vector.count row.bytes self.old.vector.bytes ≡ 0
            → lowest (all_served (map (product_of self.old.vector.count self.old.vector.bytes added.bytes) (bytes_of (self.old.rows.items ++ row ∷ [])))) 255 1 < 256 }
        ensures hands { self.new.hands ≡ self.old.hands }
        ensures rows { OnOk result (self.new.rows.items ≡ self.old.rows.items ++ row ∷ []) }
        ensures left { OnErr result ((self.new.rows.items ≡ self.old.rows.items)
            × (self.new.coefficients ≡ self.old.coefficients) × (self.new.vector ≡ self.old.vector)) }
        ensures served { OnOk result
            (Extended (bytes_of (self.old.rows.items ++ row ∷ [])) row.bytes added.bytes (trial (carrier packet) (map carrier self.old.hands.items))
            self.old.coefficients.items self.old.vector self.new.coefficients.items self.new.vector) }
    {
        self.rows.push(row)?;
        if row.dot(self.vector) != 0 {
            return Ok(());
        }
        let products = match products(heap, &self.rows, self.vector, added) {
            Ok(products) => products,
            Err(wanting) => {
                let _row = self.rows.pop();
                return Err(wanting);
            }
        };
        let t = lowest_serving(&products);
        add_at(&mut self.coefficients, &self.hands, packet, t);
        self.vector = self.vector.plus(added.scaled(t));
        Ok(())
    }
}

// What each row makes of the vector so far, and of the one to be added.
fn products(
    heap: Global,
    rows: &[Vector],
    vector: Vector,
    added: Vector,
) -> Result<Vec<Product>, AllocError>
    requires counted { (AllCounted vector.count rows.now) × (added.count ≡ vector.count) }
    ensures { IfOk result (λ ps. ps.items ≡ map (product_of vector.count vector.bytes added.bytes) (bytes_of rows.now)) }
{
    rows.iter()
        .map(|row| Product {
            before: row.dot(vector),
            added: row.dot(added),
        })
        .collect(heap)
}

// Adds t to the coefficient of a packet.
fn add_at(coefficients: &mut [u8], hands: &[Carrier], packet: Carrier, t: u8)
    requires { length coefficients.old ≡ length hands.now }
    ensures { coefficients.new ≡ plus coefficients.old (scale byte_field t (trial (carrier packet) (map carrier hands.now))) }
{
    // by place: what is written through `iter_mut().zip(..)` stays unknown to the proof
    for (k, hand) in hands.iter().enumerate() {
        if *hand == packet {
            coefficients[k] ^= t;
        }
    }
}
