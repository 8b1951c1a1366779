ghost use Rattle.std.specs.Prelude.{◌≡◌, ◌^◌, ◌<◌, ◌≤◌, drop, length, map, min, take};
ghost use Rattle.service_listing.specs.Layout.{listing_size, size_of, text_size};
ghost use Rattle.service_listing.specs.Pages.{left_of, page_in};

use scm_model::Service;
use scm_text::WText;

/// How many bytes a text takes.
fn text_size(text: &WText) -> u128
    ensures size { result ≡ text_size text.now }
    ensures small { result < 2 ^ 65 }
{
    2 * (text.units().len() as u128 + 1)
}

/// How many bytes a service takes in a listing.
fn size_of(service: &Service) -> u128
    ensures size { result ≡ size_of service.now }
    ensures small { result < 2 ^ 67 }
{
    36 + text_size(&service.config.name) + text_size(&service.config.display)
}

/// How many bytes a listing of services takes, at most 2^32, so that no size of 32 bits is enough
/// there.
pub fn listing_size(services: &[&Service]) -> u64
    ensures { result ≡ min (2 ^ 32) (listing_size (map (λ s. s.now) services.now)) }
{
    let mut total: u128 = 0;
    for service in services {
        total = (total + size_of(service)).min(1 << 32);
    }
    total as u64
}

/// How many services fit in a listing of some size, from the first one on.
fn fitting_of(services: &[&Service], size: u32) -> usize
    ensures page { take result (map (λ s. s.now) services.now) ≡ page_in size
        (map (λ s. s.now) services.now) }
    ensures left { drop result (map (λ s. s.now) services.now) ≡ left_of size
        (map (λ s. s.now) services.now) }
    ensures few { result ≤ length services.now }
{
    let mut room = size as u128;
    for i in 0..services.len() {
        let size = size_of(services[i]);
        if room < size {
            return i;
        }
        room -= size;
    }
    services.len()
}

/// How many services fit in a listing of some size, from the first one on.
pub fn fitting(services: &[&Service], size: u32) -> usize
    ensures page { map (λ s. s.now) (take result services.now) ≡ page_in size
        (map (λ s. s.now) services.now) }
    ensures left { map (λ s. s.now) (drop result services.now) ≡ left_of size
        (map (λ s. s.now) services.now) }
    ensures few { result ≤ length services.now }
{
    fitting_of(services, size)
}

/// How many services there are.
pub fn count(services: &[&Service]) -> u32
    requires { listing_size (map (λ s. s.now) services.now) < 2 ^ 32 }
    ensures { result ≡ length (map (λ s. s.now) services.now) }
{
    services.len() as u32
}
