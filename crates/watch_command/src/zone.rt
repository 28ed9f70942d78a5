// The zone of local times.

use jiff_core::Timestamp;
use jiff_core::civil::Time;
use jiff_tz::{SystemTimeZone, TimeZone, TimeZoneDatabase};
use std::fs;
use std::rt::{Env, Files};

/// Where systems keep the files of zones.
const ZONES: &str = "/usr/share/zoneinfo";

/// The zone of local times.
#[derive(Drop)]
pub(crate) struct Zone {
    zone: SystemTimeZone,
    /// The zone's file, if the system names it.
    files: TimeZoneDatabase,
}

impl Zone {
    /// The zone that the system names; UTC where that can't be read.
    pub(crate) fn read<R: Env + Files + AllocGlobal>(rt: &R) -> Zone {
        let zone = SystemTimeZone::read(rt).unwrap_or(SystemTimeZone::Utc);
        let mut files = TimeZoneDatabase::new(rt.alloc());
        if let SystemTimeZone::Name { name, .. } = &zone {
            put_file(rt, &mut files, name.as_str());
        }
        Zone { zone, files }
    }

    /// The time of day at a time in nanoseconds since 1970.
    pub(crate) fn time_of_day(&self, time: u64) -> Time {
        let zone = self.zone.time_zone(&self.files).unwrap_or(TimeZone::UTC);
        match Timestamp::from_nanosecond(i128::from(time)) {
            Ok(time) => zone.to_datetime(time).time,
            Err(_) => Time::MIN,
        }
    }
}

/// Adds the file of a zone, if there is one.
fn put_file<R: Files + AllocGlobal>(rt: &R, files: &mut TimeZoneDatabase, name: &str) {
    let Ok(path) = format!(in rt.alloc(); "{ZONES}/{name}") else {
        return;
    };
    if let Ok(bytes) = fs::read(rt, path.as_str()) {
        let _ = files.insert(name, &bytes);
    }
}
