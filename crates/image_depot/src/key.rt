ghost use Rattle.std.specs.Prelude.{◌≡◌, ◌<◌, ◌^◌, IfOk};
ghost use Rattle.std.specs.Arc.{arc_value};
ghost use Rattle.image_depot.specs.Key.{number_of};

use crate::frozen::Frozen;
use boxcar::Pushed;
use std::alloc::{AllocError, Global};
use std::marker::Model;
use std::sync::Arc;

/// The key to a frozen image of a depot. Contracts see in it the number of the image, and the image
/// itself: what is read by a key is a part of the key, so no later call changes it.
pub struct ImageKey {
    token: Arc<Pushed<Frozen>>,
}

// By hand, since what a derive gives is proved in each crate above, for each type within.
impl Drop for ImageKey {
    fn drop(self) {
        let ImageKey { token: _ } = self;
    }
}

impl Model for ImageKey {
    ghost use Rattle.std.specs.Prelude.{◌<◌, ◌^◌};
    ghost use Rattle.std.specs.Arc.{arc_value};
    ghost use Rattle.image_depot.specs.Key.{Key, number_of};

    ghost Value = { Key };

    ghost view = { λ k. arc_value k.token };

    ghost invariant = { λ k. number_of (arc_value k.token) < 2 ^ 32 };
}

impl ImageKey {
    /// The number of the image. Keys of one depot that have one number are to one image.
    #[inline]
    pub fn number(&self) -> u32
        ensures { result ≡ number_of self.now }
    {
        self.token.index() as u32
    }

    /// The same key once more. It costs one handle.
    pub fn again(&self) -> Result<ImageKey, AllocError>
        ensures { IfOk result (λ key. key ≡ self.now) }
    {
        Ok(ImageKey {
            token: Arc::try_clone(&self.token)?,
        })
    }

    pub(crate) fn of_token(alloc: Global, token: Pushed<Frozen>) -> Result<ImageKey, AllocError>
        requires { number_of token < 2 ^ 32 }
        ensures { IfOk result (λ key. key ≡ token) }
    {
        Ok(ImageKey {
            token: Arc::new(alloc, token)?,
        })
    }

    pub(crate) fn token(&self) -> &Pushed<Frozen>
        ensures { result.now ≡ self.now }
    {
        &self.token
    }
}
