//! Worked figures of the feed, run.
#![tactic(auto)]

#[cfg(test)]
mod tests {
    use std::test::Fail;
    use wire::{
        DeltaPoint, Point, Points, PricePoint, ReadFault, Reason, RequestFault, Side,
        UnknownLetter, billionths, write_request,
    };

    // the dollars of the feed's own examples, in billionths
    #[test]
    fn prices(rt: HostRuntime) {
        assert_eq!(rt;
            billionths(2756, 2),
            27_560_000_000,
            "27.56 is 2756 at scale 2"
        );
        assert_eq!(rt;
            billionths(27560, 3),
            27_560_000_000,
            "27.560 is the same price"
        );
        assert_eq!(rt;
            billionths(121, 1),
            12_100_000_000,
            "12.1 is 121 at scale 1"
        );
        assert_eq!(rt; billionths(13, 0), 13_000_000_000, "13 is 13 at scale 0");
        assert_eq!(rt;
            billionths(u32::MAX, 0),
            4_294_967_295_000_000_000,
            "the largest price"
        );
        assert_eq!(rt; billionths(7, 9), 7, "the smallest step");
    }

    // the buffer is looked at first, and a refused request writes nothing
    #[test]
    fn refusals(rt: HostRuntime) {
        let mut short = [255u8; 43];
        assert_eq!(rt; refusal(&mut short, b""), Some(1), "43 bytes");
        let mut buffer = [255u8; 44];
        assert_eq!(rt; refusal(&mut buffer, b""), Some(20), "no source id");
        assert_eq!(rt; refusal(&mut buffer, &[65; 21]), Some(20), "21 bytes");
        assert_eq!(rt; refusal(&mut buffer, b"A\0B"), Some(20), "a zero byte");
        assert_eq!(rt; buffer, [255; 44], "refused");
        assert_eq!(rt; refusal(&mut buffer, &[65; 20]), None, "20 bytes");
    }

    // the number of the refusal of a request, where it is refused
    fn refusal(buffer: &mut [u8], source: &[u8]) -> Option<u8> {
        let fault = write_request(buffer, 1, 2, 3, source).err()?;
        Some(fault.number())
    }

    // a request for 2 to 1,001 by CIVUTHAM, sent at 09:30:00.000
    #[test]
    fn request(rt: HostRuntime) -> Result<(), Fail> {
        let mut buffer = [255u8; 46];
        write_request(&mut buffer, 34_200_000, 2, 1001, b"CIVUTHAM")?;
        let owed = [
            0, 42, 0, 20, 0, 0, 0, 0, 2, 9, 217, 192, 115, 1, 1, 0, 0, 0, 0, 2, 0, 0, 3, 233, 67,
            73, 86, 85, 84, 72, 65, 77, 0, 0, 0, 0, 0, 0, 0, 0, 0, 0, 0, 0, 255, 255,
        ];
        assert_eq!(rt; buffer, owed);
        Ok(())
    }

    // two levels of a full update, 27.56 and 27.57 at scale 2
    #[test]
    fn full_points(rt: HostRuntime) -> Result<(), Fail> {
        let bytes = [
            0, 0, 10, 196, 0, 0, 0, 5, 0, 2, 66, 0, 0, 0, 10, 197, 0, 0, 0, 7, 0, 1, 83, 0,
        ];
        let best = PricePoint {
            numerator: 2756,
            volume: 5,
            orders: 2,
            side: Side::Buy,
        };
        assert_eq!(rt; Points::<PricePoint>::new(&bytes).len(), 2);
        assert_eq!(rt; Points::<PricePoint>::new(&bytes).next(), Some(best));
        assert_eq!(rt; last_volume::<PricePoint>(&bytes), Some(7));
        assert_eq!(rt; last_volume::<PricePoint>(&[0; 11]), None, "not one point");
        assert_eq!(rt; Side::try_from(66u8)?, Side::Buy);
        assert_eq!(rt; u8::from(Side::Sell), 83);
        Ok(())
    }

    // an execution of 3 shares that leaves 5 at 27.56
    #[test]
    fn delta_point(rt: HostRuntime) -> Result<(), Fail> {
        let bytes = [
            0, 0, 10, 196, 0, 0, 0, 5, 0, 0, 0, 3, 0, 2, 83, 69, 0, 0, 0, 9, 0, 0, 0, 0, 0, 0, 0, 0,
        ];
        let owed = DeltaPoint {
            level: PricePoint {
                numerator: 2756,
                volume: 5,
                orders: 2,
                side: Side::Sell,
            },
            changed: 3,
            reason: Reason::Execution,
            link: 9,
        };
        assert_eq!(rt; Points::<DeltaPoint>::new(&bytes).next(), Some(owed));
        assert_eq!(rt; last_volume::<DeltaPoint>(&bytes), Some(5));
        assert_eq!(rt; Reason::try_from(88u8)?, Reason::Multiple);
        assert_eq!(rt; u8::from(Reason::Cancel), 67);
        Ok(())
    }

    // the volume of the last level that points name
    fn last_volume<P: Point>(bytes: &[u8]) -> Option<u32> {
        Points::<P>::new(bytes)
            .last()
            .map(|point| point.level().volume)
    }

    #[test]
    fn texts(rt: HostRuntime) -> Result<(), Fail> {
        let alloc = rt.alloc();
        assert_eq!(rt; Side::Buy.to_string(alloc)?.as_str(), "buy");
        assert_eq!(rt; Reason::Multiple.to_string(alloc)?.as_str(), "X");
        let fault = ReadFault::Body { offset: 42 };
        assert_eq!(rt;
            fault.to_string(alloc)?.as_str(),
            "refused 7 by reader offset=42"
        );
        let fault = ReadFault::Length;
        assert_eq!(rt; fault.to_string(alloc)?.as_str(), "refused 2 by reader");
        assert_eq!(rt;
            RequestFault::Source.to_string(alloc)?.as_str(),
            "refused 20"
        );
        assert_eq!(rt;
            UnknownLetter(81).to_string(alloc)?.as_str(),
            "unknown letter 81"
        );
        Ok(())
    }
}
