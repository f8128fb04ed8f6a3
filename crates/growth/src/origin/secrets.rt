//! What an origin gives: the tree's parameters, and from its seed the secrets and the chains over
//! them.

ghost use Rattle.std.specs.Prelude.{◌≡◌, length};
ghost use Rattle.tree.specs.Meaning.{hash_of};
ghost use Rattle.tree.specs.Views.{parameters_of};
ghost use Rattle.growth.specs.Grown.{masks_size, parameters, secret, chain_string};

use crate::Origin;
use hashes::TreeHash;
use strings::numeral;
use tree::Parameters;
use tree::chains::raise_chain;

impl Origin {
    /// The parameters of the tree, which hold no secret: hash key, bitmasks and height are lent,
    /// the seed is not.
    pub fn parameters(&self) -> Parameters<'_>
        ensures value { parameters_of result ≡ parameters self.now }
        ensures long { length result.masks.now ≡ masks_size }
    {
        Parameters {
            hash_key: &self.hash_key,
            masks: &self.masks,
            height: self.height,
        }
    }

    // The secret of a leaf's chain, 16 bytes: the hash's pair of the two numbers, under the seed as
    // its key (`secret` in specs/). No other function makes one from the seed.
    fn secret<H: TreeHash>(&self, leaf: u16, chain: usize) -> [u8; 16]
        ensures { result ≡ secret (hash_of H.TreeHash) self.now leaf chain }
    {
        H::pair(&self.seed, &numeral(leaf as u128), &numeral(chain as u128))
    }

    /// The string of a leaf's chain at a height, 16 bytes: its secret, raised by so many steps of
    /// the hash chain (`chain_string` in specs/).
    pub fn chain_string<H: TreeHash>(&self, leaf: u16, chain: usize, height: u8) -> [u8; 16]
        ensures { result ≡ chain_string (hash_of H.TreeHash) self.now leaf chain height }
    {
        let secret = self.secret::<H>(leaf, chain);
        raise_chain::<H>(&self.hash_key, &secret, height)
    }
}
