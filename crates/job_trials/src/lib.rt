// Tests of the calls on a job but those of walking: what is taken, each refusal, and which of two that fit is answered.
#![tactic(auto)]

#[cfg(test)]
mod tests {
    use charges::Count;
    use floors::Past;
    use jobs::job::Job;
    use jobs::refusal::Refusal;
    use std::process::Abort;
    use walks::ways::Plain;

    // A job that counts clashes.
    type Counted = Job<Count, Plain<Past>>;

    // 0 where a call was taken, else the number of its refusal.
    fn refused<X: Drop>(answer: Result<X, Refusal>) -> u8 {
        match answer {
            Ok(_) => 0,
            Err(refusal) => refusal.number(),
        }
    }

    // Three modules, of 2, 8 and 3 settings.
    fn three_modules(sheet: &mut [u16]) -> Counted {
        let mut job: Counted = Job::open_plain(7, Past {});
        for settings in [2u8, 8, 3] {
            let _ = job.add(sheet, settings);
        }
        job
    }

    fn add_answers(rt: &impl Abort, sheet: &mut [u16], short: &mut [u16]) {
        let mut job = three_modules(sheet);
        assert_eq!(rt; refused(job.add(short, 2)), 1);
        assert_eq!(rt; refused(job.add(short, 9)), 1);
        assert_eq!(rt; refused(job.add(sheet, 0)), 4);
        assert_eq!(rt; refused(job.add(sheet, 9)), 4);
        for _ in 3..20 {
            assert_eq!(rt; refused(job.add(sheet, 8)), 0);
        }
        assert_eq!(rt; refused(job.add(sheet, 8)), 3);
        assert_eq!(rt; refused(job.add(sheet, 9)), 3);
        assert_eq!(rt; refused(job.add(short, 8)), 1);
    }

    #[test]
    fn add_refuses(rt: HostRuntime) {
        add_answers(&rt, &mut [9u16; 12160], &mut [9u16; 12159]);
    }

    #[test]
    fn add_clears_its_entries_alone(rt: HostRuntime) {
        let mut sheet = [9u16; 12161];
        let mut job: Counted = Job::open_plain(7, Past {});
        assert_eq!(rt; refused(job.add(&mut sheet, 1)), 0);
        assert_eq!(rt; sheet[0], 9);
        assert_eq!(rt; refused(job.add(&mut sheet, 1)), 0);
        assert_eq!(rt; sheet[0], 0);
        assert_eq!(rt; sheet[63], 0);
        assert_eq!(rt; sheet[64], 9);
        assert_eq!(rt; refused(job.add(&mut sheet, 1)), 0);
        assert_eq!(rt; sheet[64], 0);
        assert_eq!(rt; sheet[191], 0);
        assert_eq!(rt; sheet[192], 9);
        assert_eq!(rt; sheet[12160], 9);
    }

    fn charge_answers(rt: &impl Abort, sheet: &mut [u16], short: &mut [u16]) {
        let job = three_modules(sheet);
        // module, setting, module, setting, clash, and the refusal
        let cases = [
            (0, 1, 2, 2, 1000, 0),
            (0, 0, 1, 7, 0, 0),
            (3, 0, 4, 0, 1, 5),
            (0, 0, 3, 0, 1, 5),
            (3, 0, 1, 0, 1, 5),
            (255, 9, 0, 9, 1001, 5),
            (0, 9, 3, 0, 1, 5),
            (0, 0, 3, 0, 1001, 5),
            (1, 0, 1, 0, 1, 6),
            (2, 0, 1, 0, 1, 6),
            (2, 3, 1, 8, 1, 6),
            (1, 0, 1, 0, 1001, 6),
            (0, 2, 1, 0, 1, 7),
            (0, 0, 1, 8, 1, 7),
            (0, 0, 2, 3, 65535, 7),
            (0, 0, 1, 0, 1001, 8),
            (0, 0, 1, 0, 65535, 8),
        ];
        for (i, k, j, l, clash, expected) in cases {
            assert_eq!(rt; refused(job.charge(sheet, i, k, j, l, clash)), expected);
            assert_eq!(rt; refused(job.charge(short, i, k, j, l, clash)), 1);
        }
    }

    #[test]
    fn charge_refuses(rt: HostRuntime) {
        let mut sheet = [0u16; 12160];
        charge_answers(&rt, &mut sheet, &mut [0u16; 12159]);
        assert_eq!(rt; sheet[74], 1000);
    }

    #[test]
    fn narrow_refuses(rt: HostRuntime) {
        let mut sheet = [0u16; 12160];
        let mut job = three_modules(&mut sheet);
        // module, mask, and the refusal
        let cases = [
            (0, 1, 0),
            (0, 3, 0),
            (1, 255, 0),
            (2, 5, 0),
            (3, 1, 5),
            (3, 0, 5),
            (200, 255, 5),
            (0, 0, 9),
            (0, 4, 9),
            (0, 5, 9),
            (2, 8, 9),
            (2, 255, 9),
        ];
        for (i, mask, expected) in cases {
            assert_eq!(rt; refused(job.narrow(i, mask)), expected);
        }
    }

    #[test]
    fn weigh_refuses(rt: HostRuntime) {
        let mut sheet = [0u16; 12160];
        let job = three_modules(&mut sheet);
        let mut row = [0u8; 20];
        assert_eq!(rt; refused(job.weigh(&sheet, &row)), 0);
        assert_eq!(rt; refused(job.weigh(&sheet[0..12159], &row)), 1);
        assert_eq!(rt; refused(job.weigh(&sheet, &row[0..19])), 1);
        row[3] = 255;
        assert_eq!(rt; refused(job.weigh(&sheet, &row)), 0);
        row[2] = 3;
        assert_eq!(rt; refused(job.weigh(&sheet, &row)), 7);
        assert_eq!(rt; refused(job.weigh(&sheet, &row[0..19])), 1);
        assert_eq!(rt; refused(job.weigh(&sheet[0..12159], &row)), 1);
    }

    fn what_if_answers(
        rt: &impl Abort,
        sheet: &mut [u16],
        short: &[u16],
        row: &mut [u8],
        short_row: &mut [u8],
    ) {
        let job = three_modules(sheet);
        // module, setting, and the refusal, while the row has no setting of module 2
        let cases = [(2, 2, 0), (2, 3, 7), (0, 0, 7), (3, 0, 5), (255, 255, 5)];
        for (i, k, expected) in cases {
            assert_eq!(rt; refused(job.what_if(sheet, row, i, k)), expected);
            assert_eq!(rt; refused(job.what_if(short, row, i, k)), 1);
            assert_eq!(rt; refused(job.what_if(sheet, short_row, i, k)), 1);
        }
    }

    #[test]
    fn what_if_refuses(rt: HostRuntime) {
        let mut row = [0u8; 20];
        row[2] = 3;
        what_if_answers(
            &rt,
            &mut [0u16; 12160],
            &[0u16; 12159],
            &mut row,
            &mut [3u8; 19],
        );
        assert_eq!(rt; row[2], 3);
    }
}
