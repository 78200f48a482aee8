//! A guest's environment in a script: a key for each part.
ghost use Rattle.std.specs.Prelude.{◌≡◌, option_map, string_bytes};
ghost use Rattle.json.specs.Json.{parse_map};
ghost use Rattle.serde_json.specs.Data.{no_members};
ghost use Rattle.serde_json.specs.Find as find;
ghost use Rattle.wasi_guest.specs.Services.{env_pair, handed};
ghost use Rattle.wasi_form.specs.FoundParts.{services_found_of, services_with};
ghost use Rattle.wasi_form.specs.IsRead.{IsRead};
ghost use Rattle.wasi_form.specs.ListedLaws as laws;
ghost use Rattle.wasi_form.specs.Lists.{same};
ghost use Rattle.wasi_form.specs.ServicesForm as specs;
ghost use Rattle.wasi_form.specs.Tokens.{next_value};

use crate::atoms::{Atom, next_u64};
use crate::lists::{Item, Listed, list};
use crate::shapes::{Reading, Unread, require};
use crate::texts::{hex, text};
use json::Reader;
use std::alloc::Global;
use wasi_guest::{EnvPair, Services, WallDatetime};
use wasi_host::NANOSECONDS;

/// The keys of a script at which a part of the services stands.
#[derive(Clone, Copy, Debug, PartialEq, Eq)]
pub enum ServiceKey {
    Args,
    Env,
    Stdin,
    Wall,
    WallResolution,
    Monotonic,
    MonotonicResolution,
    Random,
}

impl ServiceKey {
    /// The key that a text is. `None` where it is another one.
    #[tactic(auto, unfolding(crate::specs::ServicesForm::service_key))]
    pub fn of(text: &str) -> Option<ServiceKey>
        ensures { result ≡ specs.service_key text.now }
    {
        if text == "args" {
            Some(ServiceKey::Args)
        } else if text == "env" {
            Some(ServiceKey::Env)
        } else if text == "stdin" {
            Some(ServiceKey::Stdin)
        } else if text == "wall" {
            Some(ServiceKey::Wall)
        } else if text == "wall_res" {
            Some(ServiceKey::WallResolution)
        } else if text == "mono" {
            Some(ServiceKey::Monotonic)
        } else if text == "mono_res" {
            Some(ServiceKey::MonotonicResolution)
        } else if text == "random" {
            Some(ServiceKey::Random)
        } else {
            None
        }
    }
}

/// An argument.
impl Item for String {
    ghost use Rattle.std.specs.Prelude.{ℕ, List};

    ghost Seen = { List ℕ };

    ghost see = { string_bytes };

    ghost of = { find.as_str };

    fn next(alloc: Global, reader: &mut Reader<'_>, depth: usize) -> Reading<Option<String>> {
        text(alloc, reader, depth)
    }
}

impl Listed for EnvPair {
    ghost use Rattle.std.specs.Prelude.{ℕ, List};

    ghost Seen = { List ℕ × List ℕ };

    ghost see = { env_pair };

    ghost of = { specs.env_pair_of_items };

    ghost sees = { laws.env_pair_sees };

    #[tactic(auto, using(crate::proofs::Lengths::short_is_no_two, crate::proofs::Lengths::long_is_no_two))]
    fn read(alloc: Global, atoms: &[Atom<'_>]) -> Reading<EnvPair> {
        let [key, value] = atoms else {
            return Err(Unread::Shape);
        };
        let key = key.as_str().ok_or(Unread::Shape)?;
        let value = value.as_str().ok_or(Unread::Shape)?;
        Ok(EnvPair {
            key: String::from_str(alloc, key)?,
            value: String::from_str(alloc, value)?,
        })
    }
}

impl Listed for WallDatetime {
    ghost use Rattle.wasi_guest.specs.declared.guest_env.WallDatetime.{WallDatetime};

    ghost Seen = { WallDatetime };

    ghost see = { same };

    ghost of = { specs.wall_of_items };

    ghost sees = { laws.wall_sees };

    #[tactic(auto, using(crate::proofs::Lengths::short_is_no_two, crate::proofs::Lengths::long_is_no_two))]
    fn read(_alloc: Global, atoms: &[Atom<'_>]) -> Reading<WallDatetime> {
        let [seconds, nanoseconds] = atoms else {
            return Err(Unread::Shape);
        };
        let seconds = seconds.as_u64().ok_or(Unread::Shape)?;
        let nanoseconds = nanoseconds.as_u32().ok_or(Unread::Shape)?;
        require(seconds < 1 << 63 && nanoseconds < NANOSECONDS)?;
        Ok(WallDatetime {
            seconds,
            nanoseconds,
        })
    }
}

// The next value of a text, read as a moment of the wall clock. `None` where it is of another shape.
fn wall(alloc: Global, reader: &mut Reader<'_>, depth: usize) -> Reading<Option<WallDatetime>>
    ensures { IsRead (λ found. (option_map same found, reader.new)) result
        (parse_map specs.wall_of (next_value depth reader.old)) }
{
    WallDatetime::next(alloc, reader, depth)
}

/// What stands at the keys of the services, or counts where nothing does: no arguments and no environment, an empty
/// standard input, the wall clock at the epoch and one nanosecond apart, the monotonic clock at 0 and one nanosecond
/// apart, and no bytes for random. A part is `None` where it is of another shape.
#[derive(Drop)]
pub struct ServiceParts {
    args: Option<Vec<String>>,
    env: Option<Vec<EnvPair>>,
    stdin: Option<Vec<u8>>,
    wall: Option<WallDatetime>,
    wall_resolution: Option<WallDatetime>,
    monotonic: Option<u64>,
    monotonic_resolution: Option<u64>,
    random: Option<Vec<u8>>,
}

impl ServiceParts {
    /// Nothing at any key.
    pub fn none(alloc: Global) -> ServiceParts
        ensures { services_found_of result ≡ specs.services_in no_members }
    {
        ServiceParts {
            args: Some(Vec::new(alloc)),
            env: Some(Vec::new(alloc)),
            stdin: Some(Vec::new(alloc)),
            wall: Some(WallDatetime {
                seconds: 0,
                nanoseconds: 0,
            }),
            wall_resolution: Some(WallDatetime {
                seconds: 0,
                nanoseconds: 1,
            }),
            monotonic: Some(0),
            monotonic_resolution: Some(1),
            random: Some(Vec::new(alloc)),
        }
    }

    /// With the member of a key, whose value is next in the text.
    pub fn with_member(
        mut self,
        alloc: Global,
        key: ServiceKey,
        reader: &mut Reader<'_>,
        depth: usize,
    ) -> Reading<ServiceParts>
        ensures { IsRead (λ parts. (services_found_of parts, reader.new)) result
            (parse_map (λ d. services_with key d (services_found_of self)) (next_value depth reader.old)) }
    {
        match key {
            ServiceKey::Args => {
                self.args = list(alloc, reader, depth)?;
                Ok(self)
            }
            ServiceKey::Env => {
                self.env = list(alloc, reader, depth)?;
                Ok(self)
            }
            ServiceKey::Stdin => {
                self.stdin = hex(alloc, reader, depth)?;
                Ok(self)
            }
            ServiceKey::Wall => {
                self.wall = wall(alloc, reader, depth)?;
                Ok(self)
            }
            ServiceKey::WallResolution => {
                self.wall_resolution = wall(alloc, reader, depth)?;
                Ok(self)
            }
            ServiceKey::Monotonic => {
                self.monotonic = next_u64(reader, depth)?;
                Ok(self)
            }
            ServiceKey::MonotonicResolution => {
                self.monotonic_resolution = next_u64(reader, depth)?;
                Ok(self)
            }
            ServiceKey::Random => {
                self.random = hex(alloc, reader, depth)?;
                Ok(self)
            }
        }
    }

    /// The services of these parts. `None` where one is of another shape.
    #[tactic(auto, unfolding(crate::specs::ServicesForm::services_found))]
    pub fn services(self) -> Option<Services>
        ensures { option_map handed result ≡ specs.services_found (services_found_of self) }
    {
        Some(Services {
            args: self.args?,
            env: self.env?,
            stdin: self.stdin?,
            wall: self.wall?,
            wall_resolution: self.wall_resolution?,
            monotonic: self.monotonic?,
            monotonic_resolution: self.monotonic_resolution?,
            random: self.random?,
        })
    }
}
