ghost use Rattle.std.specs.Prelude.{◌≡◌, IfOk};
ghost use Rattle.std.specs.Arc.{arc_value};
ghost use Rattle.image_depot.specs.Reply.{sent_image, sent_page};

use crate::parcel::Parcel;
use boxcar::Pushed;
use std::alloc::{AllocError, Global};
use std::marker::Model;
use std::sync::Arc;

/// A parcel that a depot keeps for all threads, with the number of its image and the place of its page. Contracts
/// see in it the parcel itself, so no later call changes it.
#[derive(Drop)]
pub struct Sent {
    token: Arc<Pushed<Parcel>>,
    image: u32,
    page: u32,
}

impl Model for Sent {
    ghost use Rattle.std.specs.Prelude.{◌≡◌};
    ghost use Rattle.std.specs.Arc.{arc_value};
    ghost use Rattle.image_depot.specs.Reply.{Delivery, sent_image, sent_page};

    ghost Value = { Delivery };

    ghost view = { λ s. arc_value s.token };

    ghost invariant = { λ s. (s.image ≡ sent_image (arc_value s.token)) × (s.page ≡ sent_page (arc_value s.token)) };
}

impl Sent {
    /// The number of the image that the parcel is of. It takes no memory.
    #[inline]
    pub fn image(&self) -> u32
        ensures { result ≡ sent_image self.now }
    {
        self.image
    }

    /// The place of the page that the parcel carries. It takes no memory.
    #[inline]
    pub fn page(&self) -> u32
        ensures { result ≡ sent_page self.now }
    {
        self.page
    }

    /// The same once more. It costs one handle.
    pub fn again(&self) -> Result<Sent, AllocError>
        ensures { IfOk result (λ sent. sent ≡ self.now) }
    {
        Ok(Sent {
            token: Arc::try_clone(&self.token)?,
            image: self.image,
            page: self.page,
        })
    }

    pub(crate) fn of_token(
        alloc: Global,
        token: Pushed<Parcel>,
        image: u32,
        page: u32,
    ) -> Result<Sent, AllocError>
        requires of_image { image ≡ sent_image token }
        requires of_page { page ≡ sent_page token }
        ensures { IfOk result (λ sent. sent ≡ token) }
    {
        Ok(Sent {
            token: Arc::new(alloc, token)?,
            image,
            page,
        })
    }

    pub(crate) fn token(&self) -> &Pushed<Parcel>
        ensures { result.now ≡ self.now }
    {
        &self.token
    }
}
