// Reports as they are printed.
use refusal::Refusal;
use report::Report;
use std::test::Fail;
use vetting::Depths;

#[test]
fn reports(rt: HostRuntime) -> Result<(), Fail> {
    let mut image = [0x0000; 256];
    image[0x31] = 0x9005;
    let depths = Depths {
        main: 1,
        handler: 0,
        total: 2,
    };
    let table = [
        (Ok(depths), "accepted\nmain 1\nhandler 0\ntotal 2\n"),
        (
            Err(Refusal::HandlerWrite { at: 0x31 }),
            "refused 10 handler write at 0x31\n31 9005 MOV 0x05, r0\n",
        ),
        (
            Err(Refusal::SheetWord { index: 2 }),
            "refused 3 sheet word at 2\n",
        ),
        (Err(Refusal::Depth), "refused 11 depth\n"),
    ];
    for (answer, text) in table {
        let report = Report {
            image: &image,
            answer,
        };
        assert_eq!(rt; report.to_string(rt.alloc())?.as_str(), text);
    }
    Ok(())
}

#[test]
fn no_line_past_the_image(rt: HostRuntime) -> Result<(), Fail> {
    let report = Report {
        image: &[0xBA00],
        answer: Err(Refusal::MainReturn { at: 0x01 }),
    };
    assert_eq!(rt;
        report.to_string(rt.alloc())?.as_str(),
        "refused 6 main return at 0x01\n"
    );
    Ok(())
}
