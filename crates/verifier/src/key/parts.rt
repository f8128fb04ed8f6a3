//! The parts of an opened key.

ghost use Rattle.std.specs.Prelude.{◌≡◌};
ghost use Rattle.tree.specs.Views.{parameters_of};
ghost use Rattle.records.specs.Records.{root_of};
ghost use Rattle.verifier.specs.Rules.{parameters_in};
ghost use Rattle.verifier.specs.Views.{key_of};

use crate::OpenedKey;
use records::key;
use tree::Parameters;

impl<'a> OpenedKey<'a> {
    /// The height, from 1 to 8; the key has 2^height leaves.
    pub fn height(&self) -> u8
        ensures { result ≡ (key_of self.now).height }
    {
        self.height
    }

    /// The parameters of the tree: the record's hash key and bitmasks, lent, and the height
    /// (`parameters_in` in specs/).
    pub(crate) fn parameters(&self) -> Parameters<'a>
        ensures { parameters_of result ≡ parameters_in (key_of self.now) }
    {
        Parameters {
            hash_key: key::hash_key(self.bytes),
            masks: key::masks(self.bytes),
            height: self.height,
        }
    }

    /// The root, the last 16 bytes of the record.
    pub(crate) fn root(&self) -> &'a [u8; 16]
        ensures { result.now ≡ root_of (key_of self.now).bytes }
    {
        key::root(self.bytes)
    }
}
